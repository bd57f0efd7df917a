// Refusal 5: a row wider than 64.
ghost use Rattle.std.specs.Prelude.{◌≡◌, ℕ, ◌≤◌, ◌<◌, get_or};
ghost use Rattle.algebra.specs.Plan.{width_of, join_width};
ghost use Rattle.plan.specs.Words as spec;
ghost use Rattle.plan.specs.Plan.{kind_of, node_at, widths_of};
ghost use Rattle.plan.specs.Promise.{Formed};
ghost use Rattle.plan.specs.Passes.{Measured};

use crate::kinds::JoinKind;
use crate::operator::Operator;
use crate::sorts::Sort;
use crate::tags::count_of_sort;
use crate::words::{first_item, item_count, left, nodes, right, table_width};
use crate::{PerNode, Plan};

// The widths of the nodes before the first that is too wide, and how many they are.
// Not a Result: the crates above ask it of accepted plans, where it cannot fail.
#[derive(Clone, Copy)]
pub struct Widths {
    pub rows: PerNode,
    pub narrow: u32,
}

// The width of a row of a join whose kind has the number k.
pub fn join_width(k: u32, l: u32, r: u32) -> usize
    ensures { result ≡ join_width (kind_of k) l r }
{
    JoinKind::from_number(k).width(l, r)
}

// The width of node n, from those of its inputs.
#[tactic(auto, using(crate::proofs::Laws::Formed::left_in, crate::proofs::Laws::Formed::right_in))]
fn node_width(words: &[u32], n: u32, rows: &PerNode) -> u32
    requires { Formed words.now × (n < spec.nodes words.now) × ((m : ℕ) → m < n → get_or rows.now m 0 ≤ 64) }
    ensures { result ≡ width_of (widths_of words.now) (λ i. get_or rows.now i 0) (node_at words.now n) }
{
    let l = left(words, n);
    let count = item_count(words, n);
    match Operator::of(words, n) {
        Operator::Scan => table_width(words, l),
        Operator::Select => rows[l as usize],
        Operator::Map => rows[l as usize] + 1,
        Operator::Project | Operator::Group => count,
        Operator::Groupjoin => {
            rows[l as usize] + count_of_sort(words, first_item(words, n), count, Sort::Aggregate)
        }
        Operator::Join | Operator::Dependent => {
            let r = rows[right(words, n) as usize];
            JoinKind::of(words, n).width(rows[l as usize], r) as u32
        }
    }
}

pub fn work_out_widths(words: &[u32]) -> Widths
    requires { Formed words.now }
    ensures { Measured words.now result.rows result.narrow }
{
    let mut rows = [0; Plan::NODES as usize];
    let count = nodes(words);
    for n in 0..count {
        let w = node_width(words, n, &rows);
        if Plan::WIDTH < w {
            return Widths { rows, narrow: n };
        }
        rows[n as usize] = w;
    }
    Widths {
        rows,
        narrow: count,
    }
}
