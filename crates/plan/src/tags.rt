// Tags by name, and counting the items of a node by their sorts.
ghost use Rattle.std.specs.Prelude.{◌≡◌, ◌+◌, ◌≤◌, length};
ghost use Rattle.algebra.specs.Lists.{keep};
ghost use Rattle.plan.specs.Words as spec;
ghost use Rattle.plan.specs.Items.{between};
ghost use Rattle.plan.specs.Sorts.{is_of};

use crate::sorts::Sort;
use crate::words::tag;

// Tags that the code names one by one: a test for the same value or two nulls, a copied column, a key, an output column, a count.
pub const SAME: u32 = 7;

pub const COPY: u32 = 8;

pub const KEY: u32 = 11;

pub const OUTPUT: u32 = 12;

pub const COUNT: u32 = 13;

// How many of count items from item a on are of a sort.
pub fn count_of_sort(words: &[u32], a: u32, count: u32, sort: Sort) -> u32
    requires { a + count ≤ 2000 }
    ensures { result ≡ length (keep (is_of sort) (spec.items_from words.now a count)) }
{
    (a..a + count).filter(|&j| sort.is_of(words, j)).count() as u32
}

// How many of count items from item a on have a tag from low to high.
pub fn count_tagged(words: &[u32], a: u32, count: u32, low: u32, high: u32) -> u32
    requires { a + count ≤ 2000 }
    ensures { result ≡ length (keep (λ x. between low high x.tag) (spec.items_from words.now a count)) }
{
    (a..a + count)
        .filter(|&j| (low..=high).contains(&tag(words, j)))
        .count() as u32
}
