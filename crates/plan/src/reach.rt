// How far a node reaches beyond itself: it is open where its reach is not 0.
ghost use Rattle.std.specs.Prelude.{◌≡◌, ℕ, ◌+◌, ◌≤◌, ◌<◌, get_or};
ghost use Rattle.plan.specs.Words as spec;
ghost use Rattle.plan.specs.Promise.{Formed};
ghost use Rattle.plan.specs.Passes.{ZeroFrom, Reaches, term_reach, items_reach, node_reach};

use crate::operator::Operator;
use crate::words::{first_item, item_count, item_word, left, nodes, right};
use crate::{PerNode, Plan};

// The reach of the term whose three words begin at word k of item j.
fn term_reach(words: &[u32], j: u32, k: u32) -> u32
    requires { (k ≤ 4) × (spec.item_word words.now j (k + 1) ≤ 7) }
    ensures { result ≡ term_reach (spec.three_at words.now j k) }
{
    if item_word(words, j, k) == 1 {
        item_word(words, j, k + 1) + 1
    } else {
        0
    }
}

// The reach of count items from item a on.
fn items_reach(words: &[u32], a: u32, count: u32) -> u32
    requires { (a + count ≤ 2000) × ((i : ℕ) → i < count → (spec.item_word words.now (a + i) 2 ≤ 7) × (spec.item_word words.now (a + i) 5 ≤ 7)) }
    ensures { result ≡ items_reach (spec.items_from words.now a count) }
{
    let mut reach = 0;
    for i in 0..count {
        let first = term_reach(words, a + i, 1);
        reach = first.max(term_reach(words, a + i, 4)).max(reach);
    }
    reach
}

// The reach of node n, from those of its inputs; a dependent join's left row is one level of its right side.
#[tactic(auto, using(crate::proofs::Laws::Formed::left_in, crate::proofs::Laws::Formed::right_in))]
fn node_reach(words: &[u32], n: u32, reaches: &PerNode) -> u32
    requires { Formed words.now × (n < spec.nodes words.now) }
    ensures { result ≡ node_reach words.now (λ i. get_or reaches.now i 0) n }
{
    let own = items_reach(words, first_item(words, n), item_count(words, n));
    match Operator::of(words, n) {
        Operator::Scan => own,
        Operator::Select | Operator::Map | Operator::Project | Operator::Group => {
            own.max(reaches[left(words, n) as usize])
        }
        Operator::Join | Operator::Groupjoin => own
            .max(reaches[left(words, n) as usize])
            .max(reaches[right(words, n) as usize]),
        Operator::Dependent => own
            .max(reaches[left(words, n) as usize])
            .max(reaches[right(words, n) as usize].saturating_sub(1)),
    }
}

pub fn work_out_reaches(words: &[u32]) -> PerNode
    requires { Formed words.now }
    ensures reaches { Reaches words.now result }
    ensures zero_from { ZeroFrom (spec.nodes words.now) result }
{
    let mut reaches = [0; Plan::NODES as usize];
    for n in 0..nodes(words) {
        reaches[n as usize] = node_reach(words, n, &reaches);
    }
    reaches
}
