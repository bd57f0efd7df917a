// Rewrites the plans of standard input and prints a line for each: its name, the number of refusal, the node, how many words were written,
// those words, and whether the output behind them is as it was lent.
// A record is a name, the words of room in the output, and a plan's words; the name and the plan are each a byte count and that many bytes.
// Numbers have their least byte first.
#![tactic(auto)]

use input::words_from;
use records::{Answer, RECORDS, read_number, read_part};
use rewrite::{RewriteRefusal, rewrite};
use std::fmt;

// What every word of an output is before a rewriting.
const LENT: u32 = 7;

// Whether the words that were not written are as they were lent.
fn print_rest<W: fmt::Write>(to: &mut fmt::Formatter<W>, rest: &[u32]) -> fmt::Result {
    let found = if rest.iter().all(|word| *word == LENT) {
        "ok"
    } else {
        "changed"
    };
    write!(to, " rest {found}")
}

// The words that were written, and what became of the rest where there is one.
fn print_written<W: fmt::Write>(
    to: &mut fmt::Formatter<W>,
    out: &[u32],
    count: u32,
) -> fmt::Result {
    let (written, rest) = out.split_at((count as usize).min(out.len()));
    write!(to, "{} {count} words", Answer::ACCEPTED)?;
    for word in written {
        write!(to, " {word}")?;
    }
    if rest.is_empty() {
        return Ok(());
    }
    print_rest(to, rest)
}

fn print_refused<W: fmt::Write>(
    to: &mut fmt::Formatter<W>,
    out: &[u32],
    refusal: RewriteRefusal,
) -> fmt::Result {
    let answer = Answer {
        number: refusal.number(),
        node: refusal.node(),
    };
    write!(to, "{answer} 0")?;
    print_rest(to, out)
}

// What a record's line says behind the name.
#[derive(Clone, Copy)]
struct Rewriting<'a> {
    answer: Result<u32, RewriteRefusal>,
    out: &'a [u32],
}

impl fmt::Display for Rewriting<'_> {
    fn fmt<W: fmt::Write>(&self, f: &mut fmt::Formatter<W>) -> fmt::Result {
        match self.answer {
            Ok(count) => print_written(f, self.out, count),
            Err(refusal) => print_refused(f, self.out, refusal),
        }
    }
}

// Output that fails is passed over, since the status is 0 in every case: hence each `let _ =`.
fn main(rt: HostRuntime) {
    let mut from = rt.reader();
    let mut name = [0u8; 4096];
    let mut bytes = [0u8; 65536];
    let mut words = [0u32; 16384];
    for _ in 0..RECORDS {
        // Every record has a name.
        let name = read_part(&mut from, &mut name);
        if name.is_empty() {
            break;
        }
        let mut out = [LENT; 16000];
        let room = (read_number(&mut from) as usize).min(out.len());
        let words = words_from(read_part(&mut from, &mut bytes), &mut words);
        let _ = rt.write_all(name);
        let out = &mut out[..room];
        let answer = rewrite(words, out);
        let _ = println!(rt; "{}", Rewriting { answer, out });
    }
}
