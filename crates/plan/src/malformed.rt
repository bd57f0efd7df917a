// Refusal 3: a node or its items malformed.
ghost use Rattle.std.specs.Prelude.{◌≡◌, not, ◌+◌, ◌≤◌, ◌<◌};
ghost use Rattle.plan.specs.Words as spec;
ghost use Rattle.plan.specs.Verdict.{items_before, inputs_right, kind_right, count_right, node_right};
ghost use Rattle.plan.specs.Codes.{number_of};
ghost use Rattle.plan.specs.Promise.{Sized};
ghost use Rattle.plan.specs.Passes.{first};

use crate::items::node_items_right;
use crate::operator::Operator;
use crate::words::{first_item, item_count, items, kind, left, nodes, operator, right, tables};

#[tactic(auto, unfolding(crate::specs::Verdict::inputs_right))]
fn inputs_right(words: &[u32], n: u32, operator: Operator) -> bool
    requires { number_of operator ≡ spec.operator words.now n }
    ensures { result ≡ inputs_right words.now n }
{
    let l = left(words, n);
    let r = right(words, n);
    match operator {
        Operator::Scan => l < tables(words) && r == 0,
        Operator::Select | Operator::Map | Operator::Project | Operator::Group => l < n && r == 0,
        Operator::Join | Operator::Groupjoin | Operator::Dependent => l < n && r < n,
    }
}

#[tactic(auto, unfolding(crate::specs::Verdict::kind_right))]
fn kind_right(words: &[u32], n: u32, operator: Operator) -> bool
    requires { number_of operator ≡ spec.operator words.now n }
    ensures { result ≡ kind_right words.now n }
{
    match operator {
        Operator::Join | Operator::Dependent => matches!(kind(words, n), 1..=4),
        _ => kind(words, n) == 0,
    }
}

// The items of node n follow those of the nodes before it, and stay within the table.
#[tactic(auto, unfolding(crate::specs::Verdict::count_right))]
fn count_right(words: &[u32], n: u32, before: u32) -> bool
    requires { (before ≡ items_before words.now n) × (before ≤ 2000) × (n < 256) }
    ensures { result ≡ count_right words.now n }
{
    if first_item(words, n) != before {
        return false;
    }
    let end = before as usize + item_count(words, n) as usize;
    let all = items(words) as usize;
    if n + 1 == nodes(words) {
        end == all
    } else {
        end <= all
    }
}

#[tactic(auto, using(crate::proofs::Laws::Malformed::count_within), unfolding(crate::specs::Verdict::node_right))]
fn node_right(words: &[u32], n: u32, before: u32) -> bool
    requires { (before ≡ items_before words.now n) × (before ≤ 2000) × (n < 256) × (spec.items words.now ≤ 2000) }
    ensures { result ≡ node_right words.now n }
{
    let Ok(operator) = Operator::try_from(operator(words, n)) else {
        return false;
    };
    inputs_right(words, n, operator)
        && kind_right(words, n, operator)
        && count_right(words, n, before)
        && node_items_right(words, n, operator)
}

// The lowest malformed node.
pub fn malformed(words: &[u32]) -> Option<u32>
    requires { Sized words.now }
    ensures { result ≡ first (λ n. not (node_right words.now n)) (spec.nodes words.now) }
{
    let mut before = 0;
    for n in 0..nodes(words) {
        if !node_right(words, n, before) {
            return Some(n);
        }
        before += item_count(words, n);
    }
    None
}
