// What the tag of an item says, decoded.
ghost use Rattle.std.specs.Prelude.{◌≡◌};
ghost use Rattle.plan.specs.Words as spec;
ghost use Rattle.plan.specs.Items.{test_of, aggregate_of};
ghost use Rattle.plan.specs.Sorts.{is_of, Tagged};
ghost use Rattle.plan.specs.Codes.{meant_test, meant_aggregate, operation_of};

use crate::words::{position, tag};

// The sort of an item.
#[derive(Clone, Copy, Debug, PartialEq, Eq)]
pub enum Sort {
    Conjunct,
    Computation,
    Key,
    Output,
    Aggregate,
}

impl Sort {
    // Whether item j is of this sort.
    pub fn is_of(self, words: &[u32], j: u32) -> bool
        ensures { result ≡ is_of self (spec.item_at words.now j) }
    {
        Sort::try_from(tag(words, j)) == Ok(self)
    }
}

// A tag that no item has.
#[derive(Clone, Copy, Debug, PartialEq, Eq)]
pub struct UnknownTag(pub u32);

impl TryFrom<u32> for Sort {
    type Error = UnknownTag;

    ghost try_from_gives = { Tagged };

    fn try_from(tag: u32) -> Result<Self, UnknownTag> {
        match tag {
            1..=7 => Ok(Sort::Conjunct),
            8..=10 => Ok(Sort::Computation),
            11 => Ok(Sort::Key),
            12 => Ok(Sort::Output),
            13..=16 => Ok(Sort::Aggregate),
            _ => Err(UnknownTag(tag)),
        }
    }
}

// A conjunct's test of two values.
#[derive(Clone, Copy, Debug, PartialEq, Eq)]
pub enum Test {
    Equal,
    Unequal,
    Less,
    AtMost,
    More,
    AtLeast,
    Same,
}

impl Test {
    // What item j says.
    pub fn of(words: &[u32], j: u32) -> Self
        ensures { meant_test result ≡ test_of (spec.item_word words.now j 0) }
    {
        match tag(words, j) {
            2 => Test::Unequal,
            3 => Test::Less,
            4 => Test::AtMost,
            5 => Test::More,
            6 => Test::AtLeast,
            7 => Test::Same,
            _ => Test::Equal,
        }
    }
}

// What a computation makes of its terms.
#[derive(Clone, Copy, Debug, PartialEq, Eq)]
pub enum Operation {
    Copy,
    Add,
    Subtract,
}

impl Operation {
    // What item j says.
    pub fn of(words: &[u32], j: u32) -> Self
        ensures { result ≡ operation_of (spec.item_word words.now j 0) }
    {
        match tag(words, j) {
            8 => Operation::Copy,
            9 => Operation::Add,
            _ => Operation::Subtract,
        }
    }
}

// An aggregate, and the column that it is of.
#[derive(Clone, Copy, Debug, PartialEq, Eq)]
pub enum Aggregate {
    Count,
    Sum(u32),
    Minimum(u32),
    Maximum(u32),
}

impl Aggregate {
    // What item j says.
    pub fn of(words: &[u32], j: u32) -> Self
        ensures { meant_aggregate result ≡ aggregate_of (spec.item_at words.now j) }
    {
        let column = position(words, j);
        match tag(words, j) {
            13 => Aggregate::Count,
            14 => Aggregate::Sum(column),
            15 => Aggregate::Minimum(column),
            _ => Aggregate::Maximum(column),
        }
    }
}
