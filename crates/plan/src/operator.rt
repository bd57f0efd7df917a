// The operator of a node, decoded.
ghost use Rattle.std.specs.Prelude.{◌≡◌};
ghost use Rattle.plan.specs.Words as spec;
ghost use Rattle.plan.specs.Verdict as verdict;
ghost use Rattle.plan.specs.Codes.{operator_of, number_of, has_left, Numbered};

use crate::words::operator;

#[derive(Clone, Copy, Debug, PartialEq, Eq)]
pub enum Operator {
    Scan,
    Select,
    Map,
    Project,
    Join,
    Group,
    Groupjoin,
    Dependent,
}

impl Operator {
    // The operator of node n, which has a number from 1 to 8 in every plan that is past refusal 3.
    pub fn of(words: &[u32], n: u32) -> Self
        ensures { result ≡ operator_of (spec.operator words.now n) }
    {
        Operator::try_from(operator(words, n)).unwrap_or(Operator::Dependent)
    }

    pub fn number(self) -> u32
        ensures { result ≡ number_of self }
    {
        match self {
            Operator::Scan => 1,
            Operator::Select => 2,
            Operator::Map => 3,
            Operator::Project => 4,
            Operator::Join => 5,
            Operator::Group => 6,
            Operator::Groupjoin => 7,
            Operator::Dependent => 8,
        }
    }

    // A scan names a table; every other operator has a left input.
    pub fn has_left(self) -> bool
        ensures { result ≡ has_left (number_of self) }
    {
        !matches!(self, Operator::Scan)
    }

    // Join, groupjoin and dependent join have a right input.
    pub fn has_right(self) -> bool
        ensures { result ≡ verdict.has_right (number_of self) }
    {
        matches!(
            self,
            Operator::Join | Operator::Groupjoin | Operator::Dependent
        )
    }
}

// A number that no operator has.
#[derive(Clone, Copy, Debug, PartialEq, Eq)]
pub struct UnknownOperator(pub u32);

impl TryFrom<u32> for Operator {
    type Error = UnknownOperator;

    ghost try_from_gives = { Numbered };

    fn try_from(number: u32) -> Result<Self, UnknownOperator> {
        match number {
            1 => Ok(Operator::Scan),
            2 => Ok(Operator::Select),
            3 => Ok(Operator::Map),
            4 => Ok(Operator::Project),
            5 => Ok(Operator::Join),
            6 => Ok(Operator::Group),
            7 => Ok(Operator::Groupjoin),
            8 => Ok(Operator::Dependent),
            _ => Err(UnknownOperator(number)),
        }
    }
}
