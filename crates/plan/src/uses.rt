// Refusals 4 and 6: a node other than the root unused, and an open node used more than once.
ghost use Rattle.std.specs.Prelude.{◌≡◌};
ghost use Rattle.plan.specs.Words as spec;
ghost use Rattle.plan.specs.Verdict.{is_unused_node, is_open_twice};
ghost use Rattle.plan.specs.Promise.{Sized, Formed};
ghost use Rattle.plan.specs.Passes.{Counted, Reaches, first};

use crate::operator::Operator;
use crate::words::{left, nodes, right};
use crate::{PerNode, Plan};

// How often each node is an input; a call of its own, so that check keeps to the stack that the header says.
#[inline(never)]
#[tactic(auto, using(crate::proofs::Laws::Formed::left_in, crate::proofs::Laws::Formed::right_in))]
pub fn count_uses(words: &[u32]) -> PerNode
    requires { Formed words.now }
    ensures { Counted words.now result }
{
    let mut uses = [0; Plan::NODES as usize];
    for n in 0..nodes(words) {
        let operator = Operator::of(words, n);
        if operator.has_left() {
            uses[left(words, n) as usize] += 1;
        }
        if operator.has_right() {
            uses[right(words, n) as usize] += 1;
        }
    }
    uses
}

// The lowest unused node; the root need not be used.
pub fn first_unused(words: &[u32], uses: &PerNode) -> Option<u32>
    requires { Sized words.now × Counted words.now uses.now }
    ensures { result ≡ first (is_unused_node words.now) (spec.nodes words.now) }
{
    (0..nodes(words) - 1).find(|&n| uses[n as usize] == 0)
}

// The lowest open node that is used more than once.
pub fn first_open_twice(words: &[u32], uses: &PerNode, reaches: &PerNode) -> Option<u32>
    requires { Sized words.now × Counted words.now uses.now × Reaches words.now reaches.now }
    ensures { result ≡ first (is_open_twice words.now) (spec.nodes words.now) }
{
    (0..nodes(words)).find(|&n| 0 < reaches[n as usize] && 1 < uses[n as usize])
}
