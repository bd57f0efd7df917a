// What the programs read and print alike: words from standard input, refusals, listings.
// What is printed regardless passes over output that fails, since a program's status is 0 in every case (docs/PLANS.md): hence each `let _ =`.
#![tactic(auto)]

ghost use Rattle.std.specs.Prelude.{◌≡◌, take};

use input::{read_full, words_from};
use plan::Plan;
use plan::widths::work_out_widths;
use plan::words::{item_count, items, kind, left, nodes, operator, right};
use rewrite::rewrite;
use std::io;
use std::io::Read;

// The words of the longest plan.
pub const LONGEST_PLAN: usize = 8
    + Plan::TABLES as usize
    + 6 * Plan::NODES as usize
    + 7 * Plan::ITEMS as usize;

// The words that are read: more than any plan has.
pub const INPUT_WORDS: usize = 16384;

// Their bytes.
const INPUT_BYTES: usize = 4 * INPUT_WORDS;

// The words of an input, least byte first; none where it is no whole number of them, or too long.
pub fn read_words<'a, R: Read>(from: &mut R, room: &'a mut [u32]) -> Option<&'a [u32]> {
    let mut bytes = [0u8; INPUT_BYTES];
    let came = read_full(from, &mut bytes);
    let mut extra = [0u8; 1];
    if !read_full(from, &mut extra).is_empty() {
        return None;
    }
    if came.len() % 4 != 0 {
        return None;
    }
    Some(words_from(came, room))
}

// What was written of a buffer: its first count, or all of it where it has fewer, which no answer counts.
pub fn front<T>(buffer: &[T], count: u32) -> &[T]
    ensures { result.now ≡ take count buffer.now }
{
    &buffer[..(count as usize).min(buffer.len())]
}

pub fn print_refused(rt: &impl Print, number: u32, node: u32) -> io::Result<()> {
    println!(rt; "refused {number} {node}")
}

pub fn print_refused_regardless(rt: &impl Print, number: u32, node: u32) {
    let _ = print_refused(rt, number, node);
}

// Number, operator, kind, left, right, item count, width.
fn print_node(rt: &impl Print, words: &[u32], n: u32, width: u32) -> io::Result<()> {
    println!(rt;
        "{n} {} {} {} {} {} {width}",
        operator(words, n),
        kind(words, n),
        left(words, n),
        right(words, n),
        item_count(words, n)
    )
}

// The listing of an accepted plan; the rewriting of one always is. Output that fails ends it.
fn print_plan(rt: &impl Print, words: &[u32]) -> io::Result<()> {
    let Ok(()) = plan::check(words) else {
        return Ok(());
    };
    let widths = work_out_widths(words);
    println!(rt; "nodes {} items {}", nodes(words), items(words))?;
    for (n, width) in (0..nodes(words)).zip(widths.rows) {
        print_node(rt, words, n, width)?;
    }
    Ok(())
}

// The same, past output that fails.
fn print_plan_regardless(rt: &impl Print, words: &[u32]) {
    let Ok(()) = plan::check(words) else {
        return;
    };
    let widths = work_out_widths(words);
    let _ = println!(rt; "nodes {} items {}", nodes(words), items(words));
    for (n, width) in (0..nodes(words)).zip(widths.rows) {
        let _ = print_node(rt, words, n, width);
    }
}

// The listing of a plan's rewriting, or the refusal. Output that fails ends it.
pub fn list(rt: &impl Print, words: &[u32]) -> io::Result<()> {
    let mut out = [0u32; LONGEST_PLAN];
    match rewrite(words, &mut out) {
        Ok(count) => print_plan(rt, front(&out, count)),
        Err(refusal) => print_refused(rt, refusal.number(), refusal.node()),
    }
}

// The same, past output that fails.
pub fn list_regardless(rt: &impl Print, words: &[u32]) {
    let mut out = [0u32; LONGEST_PLAN];
    match rewrite(words, &mut out) {
        Ok(count) => print_plan_regardless(rt, front(&out, count)),
        Err(refusal) => print_refused_regardless(rt, refusal.number(), refusal.node()),
    }
}

#[cfg(test)]
mod tests {
    use super::*;
    use std::cell::Cell;
    use std::fmt::Display;
    use std::io::ErrorKind;

    // An output that takes so many lines and fails from then on; it counts those that it is given.
    #[derive(Drop)]
    struct Lines {
        room: u32,
        given: Cell<u32>,
    }

    impl Lines {
        fn with_room(room: u32) -> Lines {
            Lines {
                room,
                given: Cell::new(0),
            }
        }

        fn take(&self) -> io::Result<()> {
            let given = self.given.get().saturating_add(1);
            self.given.set(given);
            if self.room < given {
                return Err(ErrorKind::WriteZero.into());
            }
            Ok(())
        }
    }

    impl Print for Lines {
        fn print<D: Display + Drop>(&self, value: D) -> io::Result<()> {
            self.take()
        }

        fn println<D: Display + Drop>(&self, value: D) -> io::Result<()> {
            self.take()
        }

        fn write_all(&self, bytes: &[u8]) -> io::Result<()> {
            self.take()
        }
    }

    // A scan of a table of width 1, and all of its rows: three lines are listed.
    const ALL_ROWS: [u32; 21] = [
        21, 1, 8, 2, 9, 0, 21, 0, 1, 1, 0, 0, 0, 0, 0, 2, 0, 0, 0, 0, 0,
    ];

    #[test]
    fn answers_output_that_fails(rt: HostRuntime) {
        for (room, done) in [(0, false), (1, true)] {
            assert_eq!(rt;
                print_refused(&Lines::with_room(room), 1, 0).is_ok(),
                done,
                "refused, {room}"
            );
            assert_eq!(rt;
                list(&Lines::with_room(room), &[]).is_ok(),
                done,
                "no plan, {room}"
            );
        }
        for (room, given, done) in [(0, 1, false), (1, 2, false), (2, 3, false), (3, 3, true)] {
            let to = Lines::with_room(room);
            assert_eq!(rt; list(&to, &ALL_ROWS).is_ok(), done, "room for {room}");
            assert_eq!(rt; to.given.get(), given, "lines, room for {room}");
        }
    }

    #[test]
    fn prints_regardless(rt: HostRuntime) {
        for room in 0..4 {
            let to = Lines::with_room(room);
            list_regardless(&to, &ALL_ROWS);
            assert_eq!(rt; to.given.get(), 3, "room for {room}");
            list_regardless(&to, &[]);
            print_refused_regardless(&to, 1, 0);
            assert_eq!(rt; to.given.get(), 5, "room for {room}");
        }
    }
}
