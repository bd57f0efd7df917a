// Refusals 1 and 2: the header, and the limits.
ghost use Rattle.std.specs.Prelude.{◌≡◌};
ghost use Rattle.algebra.specs.Lists.{all, upto};
ghost use Rattle.plan.specs.Words.{table_width};
ghost use Rattle.plan.specs.Items.{between};
ghost use Rattle.plan.specs.Verdict.{header_right, limits_right};

use crate::Plan;
use crate::words::{items, nodes, table_width, tables, word};

#[tactic(auto, unfolding(crate::specs::Verdict::header_right))]
pub fn header_right(words: &[u32]) -> bool
    ensures { result ≡ header_right words.now }
{
    let total = word(words, 0) as usize;
    let at_nodes = 8 + tables(words) as usize;
    let at_items = at_nodes + 6 * nodes(words) as usize;
    8 <= words.len()
        && total == words.len()
        && total == at_items + 7 * items(words) as usize
        && word(words, 2) == 8
        && word(words, 4) as usize == at_nodes
        && word(words, 6) as usize == at_items
        && word(words, 7) == 0
}

#[tactic(auto, unfolding(crate::specs::Verdict::limits_right))]
pub fn limits_right(words: &[u32]) -> bool
    ensures { result ≡ limits_right words.now }
{
    matches!(tables(words), 1..=Plan::TABLES)
        && matches!(nodes(words), 1..=Plan::NODES)
        && items(words) <= Plan::ITEMS
        && table_widths_right(words, tables(words))
}

// Every one of the first t tables has a width within its limit.
fn table_widths_right(words: &[u32], t: u32) -> bool
    ensures { result ≡ all (λ i. between 1 64 (table_width words.now i)) (upto t) }
{
    (0..t).all(|i| matches!(table_width(words, i), 1..=Plan::WIDTH))
}
