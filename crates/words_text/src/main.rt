// Reads plan words from standard input, least byte first, and prints their text.
#![tactic(auto)]

use programs::{INPUT_WORDS, front, print_refused_regardless, read_words};
use text::{Text, write_text};

fn print_text(rt: &impl Print, words: &[u32]) {
    let mut text = [0u8; Text::LONGEST];
    match write_text(words, &mut text) {
        Ok(count) => {
            // Output that fails is passed over, since the status is 0 in every case (docs/PLANS.md).
            let _ = rt.write_all(front(&text, count));
        }
        Err(refusal) => print_refused_regardless(rt, refusal.number(), 0),
    }
}

fn main(rt: HostRuntime) {
    let mut room = [0u32; INPUT_WORDS];
    match read_words(&mut rt.reader(), &mut room) {
        Some(words) => print_text(&rt, words),
        None => print_refused_regardless(&rt, 1, 0),
    }
}
