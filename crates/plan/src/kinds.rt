// The kind of a join, decoded.
ghost use Rattle.std.specs.Prelude.{◌≡◌};
ghost use Rattle.algebra.specs.Plan.{join_width};
ghost use Rattle.plan.specs.Words as spec;
ghost use Rattle.plan.specs.Plan.{kind_of};
ghost use Rattle.plan.specs.Codes.{meant_kind};
ghost use Rattle.plan.specs.Encoding.{kind_word};

use crate::words::kind;

#[derive(Clone, Copy, Debug, PartialEq, Eq)]
pub enum JoinKind {
    Inner,
    Semi,
    Anti,
    LeftOuter,
}

impl JoinKind {
    // The kind of join n.
    pub fn of(words: &[u32], n: u32) -> Self
        ensures { meant_kind result ≡ kind_of (spec.kind words.now n) }
    {
        JoinKind::from_number(kind(words, n))
    }

    // The kind with a number; one that no kind has is taken for an inner join's.
    pub fn from_number(number: u32) -> Self
        ensures { meant_kind result ≡ kind_of number }
    {
        match number {
            2 => JoinKind::Semi,
            3 => JoinKind::Anti,
            4 => JoinKind::LeftOuter,
            _ => JoinKind::Inner,
        }
    }

    pub fn number(self) -> u32
        ensures { result ≡ kind_word (meant_kind self) }
    {
        match self {
            JoinKind::Inner => 1,
            JoinKind::Semi => 2,
            JoinKind::Anti => 3,
            JoinKind::LeftOuter => 4,
        }
    }

    // How wide a row of such a join is.
    pub fn width(self, left: u32, right: u32) -> usize
        ensures { result ≡ join_width (meant_kind self) left right }
    {
        match self {
            JoinKind::Semi | JoinKind::Anti => left as usize,
            JoinKind::Inner | JoinKind::LeftOuter => left as usize + right as usize,
        }
    }
}
