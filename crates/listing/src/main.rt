// Reads plan words from standard input, least byte first, rewrites the plan, and prints its nodes.
#![tactic(auto)]

use programs::{INPUT_WORDS, list_regardless, print_refused_regardless, read_words};

fn main(rt: HostRuntime) {
    let mut room = [0u32; INPUT_WORDS];
    match read_words(&mut rt.reader(), &mut room) {
        Some(words) => list_regardless(&rt, words),
        None => print_refused_regardless(&rt, 1, 0),
    }
}
