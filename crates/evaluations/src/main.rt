// Evaluates the plans of standard input and prints a line for each: its name, the number of refusal, the node, how many rows were written,
// the cells of those rows, and whether the rest of the output and scratch are as they should be.
// A record is a name, the row limit, the cells of scratch and of output, the plan's words, the row counts, and the database cells, eight bytes each.
#![tactic(auto)]

use evaluate::{EvaluateRefusal, evaluate};
use input::words_from;
use records::{Answer, RECORDS, read_number, read_part};
use std::fmt;

// What every cell of scratch and output is before an evaluation.
const LENT: i64 = 1234567890123456789;

// Fills room from the front with the whole cells of bytes, as many as it has room for, and lends them.
fn cells_from<'a>(bytes: &[u8], room: &'a mut [i64]) -> &'a [i64] {
    let (cells, _) = bytes.as_chunks::<8>();
    for (place, cell) in room.iter_mut().zip(cells) {
        *place = i64::from_le_bytes(*cell);
    }
    &room[..cells.len().min(room.len())]
}

fn print_cell<W: fmt::Write>(to: &mut fmt::Formatter<W>, cell: i64) -> fmt::Result {
    if cell == i64::MIN {
        write!(to, " null")
    } else {
        write!(to, " {cell}")
    }
}

// The cells of the output up to its last one that was changed.
fn print_cells<W: fmt::Write>(to: &mut fmt::Formatter<W>, out: &[i64]) -> fmt::Result {
    write!(to, " cells")?;
    let unchanged = out.iter().rev().take_while(|cell| **cell == LENT).count();
    for cell in &out[..out.len() - unchanged] {
        print_cell(to, *cell)?;
    }
    Ok(())
}

fn all_are(cells: &[i64], cell: i64) -> bool {
    cells.iter().all(|c| *c == cell)
}

// 0 where scratch is cleared, 7 where it is as it was lent, 1 otherwise.
fn scratch_state(scratch: &[i64]) -> u32 {
    if all_are(scratch, 0) {
        0
    } else if all_are(scratch, LENT) {
        7
    } else {
        1
    }
}

fn print_refused<W: fmt::Write>(to: &mut fmt::Formatter<W>, number: u32, node: u32) -> fmt::Result {
    write!(to, "{} 0", Answer { number, node })
}

fn print_answer<W: fmt::Write>(
    to: &mut fmt::Formatter<W>,
    answer: Result<u32, EvaluateRefusal>,
) -> fmt::Result {
    match answer {
        Ok(count) => write!(to, "{} {count}", Answer::ACCEPTED),
        Err(refusal) => print_refused(to, refusal.number(), refusal.node()),
    }
}

// What a record's line says behind the name.
#[derive(Clone, Copy)]
struct Evaluation<'a> {
    answer: Result<u32, EvaluateRefusal>,
    out: &'a [i64],
    scratch: &'a [i64],
}

impl fmt::Display for Evaluation<'_> {
    fn fmt<W: fmt::Write>(&self, f: &mut fmt::Formatter<W>) -> fmt::Result {
        print_answer(f, self.answer)?;
        print_cells(f, self.out)?;
        write!(f, " scratch {}", scratch_state(self.scratch))
    }
}

// The first cells of room, as many as the record says, as they are lent.
fn lent(room: &mut [i64], cells: u32) -> &mut [i64] {
    let count = (cells as usize).min(room.len());
    room[..count].fill(LENT);
    &mut room[..count]
}

// Output that fails is passed over, since the status is 0 in every case: hence each `let _ =`.
fn main(rt: HostRuntime) {
    let mut from = rt.reader();
    let mut bytes = [0u8; 140000];
    let mut words = [0u32; 16384];
    let mut counts = [0u32; 64];
    let mut cells = [0i64; 17500];
    let mut scratch = [0i64; 300000];
    let mut out = [0i64; 20000];
    for _ in 0..RECORDS {
        // Every record has a name, which is printed before the rest is read.
        let name = read_part(&mut from, &mut bytes);
        if name.is_empty() {
            break;
        }
        let _ = rt.write_all(name);
        let limit = read_number(&mut from);
        let scratch = lent(&mut scratch, read_number(&mut from));
        let out = lent(&mut out, read_number(&mut from));
        let words = words_from(read_part(&mut from, &mut bytes), &mut words);
        let counts = words_from(read_part(&mut from, &mut bytes), &mut counts);
        let cells = cells_from(read_part(&mut from, &mut bytes), &mut cells);
        let answer = evaluate(words, counts, cells, limit, scratch, out);
        let evaluation = Evaluation {
            answer,
            out,
            scratch,
        };
        let _ = println!(rt; "{evaluation}");
    }
}
