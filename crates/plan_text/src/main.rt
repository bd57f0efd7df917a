// Reads a plan's text from standard input, rewrites the plan, and prints its nodes as the listing program does.
#![tactic(auto)]

use input::read_full;
use programs::{LONGEST_PLAN, front, list_regardless, print_refused_regardless};
use text::{Text, read_text};

fn list_text(rt: &impl Print, text: &[u8]) {
    let mut words = [0u32; LONGEST_PLAN];
    match read_text(text, &mut words) {
        Ok(count) => list_regardless(rt, front(&words, count)),
        Err(refusal) => print_refused_regardless(rt, refusal.number(), refusal.line()),
    }
}

fn main(rt: HostRuntime) {
    // One byte more than is read, so that a longer text is refused as one.
    let mut room = [0u8; Text::LIMIT + 1];
    list_text(&rt, read_full(&mut rt.reader(), &mut room));
}
