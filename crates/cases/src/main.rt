// Checks the plans of standard input and prints a line for each: its name, the number of refusal and the node, 0 and 0 where it is accepted.
// A record is a name and a plan's words, each a byte count and that many bytes; counts and words have their least byte first.
#![tactic(auto)]

use input::words_from;
use records::{Answer, RECORDS, read_part};

fn answer(words: &[u32]) -> Answer {
    match plan::check(words) {
        Ok(()) => Answer::ACCEPTED,
        Err(refusal) => Answer {
            number: refusal.number(),
            node: refusal.node(),
        },
    }
}

// Output that fails is passed over, since the status is 0 in every case: hence each `let _ =`.
fn main(rt: HostRuntime) {
    let mut from = rt.reader();
    let mut name = [0u8; 4096];
    let mut bytes = [0u8; 65536];
    let mut words = [0u32; 16384];
    for _ in 0..RECORDS {
        // Every record has a name.
        let name = read_part(&mut from, &mut name);
        if name.is_empty() {
            break;
        }
        let words = words_from(read_part(&mut from, &mut bytes), &mut words);
        let _ = rt.write_all(name);
        let _ = println!(rt; "{}", answer(words));
    }
}
