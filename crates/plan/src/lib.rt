// What the words of a plan table say, and the check of them.
#![tactic(auto)]

pub mod words; // each word by its name
pub mod terms; // a term of an item, decoded
pub mod operator; // the operator of a node, decoded
pub mod kinds; // the kind of a join, decoded
pub mod sorts; // what the tag of an item says, decoded
pub mod header; // refusals 1 and 2
pub mod tags; // the items of a node, counted by their tags
mod items; // the items of a node, by their sorts
mod malformed; // refusal 3
mod uses; // refusals 4 and 6
pub mod widths; // refusal 5
pub mod reach; // how far a node reaches beyond itself
mod columns; // refusal 7

ghost use Rattle.std.specs.Prelude.{◌≡◌};
ghost use Rattle.plan.specs.Verdict.{verdict};
ghost use Rattle.plan.specs.Answers.{refusal_of, answer_of};

use columns::{Lookup, work_out_joins};
use header::{header_right, limits_right};
use malformed::malformed;
use reach::work_out_reaches;
use uses::{count_uses, first_open_twice, first_unused};
use widths::work_out_widths;

// The limits of a plan.
#[derive(Clone, Copy)]
pub struct Plan;

impl Plan {
    pub const TABLES: u32 = 16;

    pub const NODES: u32 = 256;

    pub const ITEMS: u32 = 2000;

    pub const WIDTH: u32 = 64;
}

// A number for each node.
pub type PerNode = [u32; Plan::NODES as usize];

// Refusals 1 to 7, each with its node where it has one.
#[derive(Clone, Copy, Debug, PartialEq, Eq)]
pub enum Refusal {
    Header,
    Limits,
    Malformed(u32),
    Unused(u32),
    TooWide(u32),
    OpenTwice(u32),
    NoColumn(u32),
}

impl Refusal {
    // The number of refusal.
    pub fn number(self) -> u32
        ensures { result ≡ (refusal_of self).number }
    {
        match self {
            Refusal::Header => 1,
            Refusal::Limits => 2,
            Refusal::Malformed(_) => 3,
            Refusal::Unused(_) => 4,
            Refusal::TooWide(_) => 5,
            Refusal::OpenTwice(_) => 6,
            Refusal::NoColumn(_) => 7,
        }
    }

    // The node that it names, 0 where it names none.
    pub fn node(self) -> u32
        ensures { result ≡ (refusal_of self).node }
    {
        match self {
            Refusal::Header | Refusal::Limits => 0,
            Refusal::Malformed(n)
            | Refusal::Unused(n)
            | Refusal::TooWide(n)
            | Refusal::OpenTwice(n)
            | Refusal::NoColumn(n) => n,
        }
    }
}

// Any slice of words gets document 01's answer.
#[tactic(auto, using(crate::proofs::Laws::Verdict::refusals))]
pub fn check(words: &[u32]) -> Result<(), Refusal>
    ensures { answer_of result ≡ verdict words.now }
{
    if !header_right(words) {
        return Err(Refusal::Header);
    }
    if !limits_right(words) {
        return Err(Refusal::Limits);
    }
    if let Some(node) = malformed(words) {
        return Err(Refusal::Malformed(node));
    }
    let uses = count_uses(words);
    if let Some(node) = first_unused(words, &uses) {
        return Err(Refusal::Unused(node));
    }
    let widths = work_out_widths(words);
    if widths.narrow < words::nodes(words) {
        return Err(Refusal::TooWide(widths.narrow));
    }
    let reaches = work_out_reaches(words);
    if let Some(node) = first_open_twice(words, &uses, &reaches) {
        return Err(Refusal::OpenTwice(node));
    }
    let joins = work_out_joins(words, &reaches);
    let columns = Lookup {
        words,
        rows: &widths.rows,
        joins: &joins,
    };
    if let Some(node) = columns.first_missing() {
        return Err(Refusal::NoColumn(node));
    }
    Ok(())
}
