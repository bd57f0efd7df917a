// The items of a node, by their sorts.
ghost use Rattle.std.specs.Prelude.{◌≡◌, ◌+◌, ◌≤◌};
ghost use Rattle.algebra.specs.Lists.{all};
ghost use Rattle.plan.specs.Words as spec;
ghost use Rattle.plan.specs.Items.{term_right, is_local, is_unused, aggregate_right};
ghost use Rattle.plan.specs.Verdict.{in_front, items_right};
ghost use Rattle.plan.specs.Sorts.{right_of, computation_terms_right, column_terms_right, aggregate_terms_right};
ghost use Rattle.plan.specs.Codes.{number_of};

use crate::operator::Operator;
use crate::sorts::{Aggregate, Operation, Sort};
use crate::tags::count_of_sort;
use crate::words::{first_item, item_count, item_word, tag};

// A used term, whose three words begin at word k.
#[tactic(auto, unfolding(crate::specs::Items::term_right))]
fn term_right(words: &[u32], j: u32, k: u32) -> bool
    requires { k ≤ 4 }
    ensures { result ≡ term_right (spec.three_at words.now j k) }
{
    let level = item_word(words, j, k + 1);
    match item_word(words, j, k) {
        0 | 2 => level == 0,
        1 => level <= 7,
        3 => level == 0 && item_word(words, j, k + 2) == 0,
        _ => false,
    }
}

fn local_term(words: &[u32], j: u32, k: u32) -> bool
    requires { k ≤ 4 }
    ensures { result ≡ is_local (spec.three_at words.now j k) }
{
    item_word(words, j, k) == 0 && item_word(words, j, k + 1) == 0
}

fn unused_term(words: &[u32], j: u32, k: u32) -> bool
    requires { k ≤ 4 }
    ensures { result ≡ is_unused (spec.three_at words.now j k) }
{
    local_term(words, j, k) && item_word(words, j, k + 2) == 0
}

// What follows the tag of a computation.
fn computation_terms_right(words: &[u32], j: u32) -> bool
    ensures { result ≡ computation_terms_right (spec.item_at words.now j) }
{
    term_right(words, j, 1)
        && match Operation::of(words, j) {
            Operation::Copy => unused_term(words, j, 4),
            Operation::Add | Operation::Subtract => term_right(words, j, 4),
        }
}

// What follows the tag of a key or an output column: a local column, and nothing.
fn column_terms_right(words: &[u32], j: u32) -> bool
    ensures { result ≡ column_terms_right (spec.item_at words.now j) }
{
    local_term(words, j, 1) && unused_term(words, j, 4)
}

// What follows the tag of an aggregate: a count has no column.
fn aggregate_terms_right(words: &[u32], j: u32) -> bool
    ensures { result ≡ aggregate_terms_right (spec.item_at words.now j) }
{
    match Aggregate::of(words, j) {
        Aggregate::Count => unused_term(words, j, 1) && unused_term(words, j, 4),
        _ => column_terms_right(words, j),
    }
}

// Item j is a well-formed one of this sort.
fn item_right(words: &[u32], j: u32, sort: Sort) -> bool
    ensures { result ≡ right_of sort (spec.item_at words.now j) }
{
    if !sort.is_of(words, j) {
        return false;
    }
    match sort {
        Sort::Conjunct => term_right(words, j, 1) && term_right(words, j, 4),
        Sort::Computation => computation_terms_right(words, j),
        Sort::Key | Sort::Output => column_terms_right(words, j),
        Sort::Aggregate => aggregate_terms_right(words, j),
    }
}

// Every one of count items from item a on is a well-formed one of this sort.
fn items_right(words: &[u32], a: u32, count: u32, sort: Sort) -> bool
    requires { a + count ≤ 2000 }
    ensures { result ≡ all (right_of sort) (spec.items_from words.now a count) }
{
    (a..a + count).all(|j| item_right(words, j, sort))
}

// The first m items of a sort, the others aggregates.
fn in_front(words: &[u32], a: u32, count: u32, m: u32, sort: Sort) -> bool
    requires { (a + count ≤ 2000) × (m ≤ count) }
    ensures { result ≡ in_front (right_of sort) aggregate_right m (spec.items_from words.now a count) }
{
    items_right(words, a, m, sort) && items_right(words, a + m, count - m, Sort::Aggregate)
}

// The items of node n are those that its operator has.
pub fn node_items_right(words: &[u32], n: u32, operator: Operator) -> bool
    requires operator { number_of operator ≡ spec.operator words.now n }
    requires items { spec.first_item words.now n + spec.item_count words.now n ≤ 2000 }
    ensures { result ≡ items_right (spec.operator words.now n) (spec.items_of words.now n) }
{
    let a = first_item(words, n);
    let count = item_count(words, n);
    match operator {
        Operator::Scan => count == 0,
        Operator::Map => count == 1 && items_right(words, a, count, Sort::Computation),
        Operator::Project => count != 0 && items_right(words, a, count, Sort::Output),
        Operator::Group => {
            let m = count_of_sort(words, a, count, Sort::Key);
            count != 0 && in_front(words, a, count, m, Sort::Key)
        }
        Operator::Groupjoin => {
            let m = count_of_sort(words, a, count, Sort::Conjunct);
            m < count && in_front(words, a, count, m, Sort::Conjunct)
        }
        Operator::Select | Operator::Join | Operator::Dependent => {
            items_right(words, a, count, Sort::Conjunct)
        }
    }
}
