// Why an operator has made no rows of its inputs' rows.
#[derive(Clone, Copy, Debug, PartialEq, Eq)]
pub enum Fault {
    TooMany,
    OutOfRange,
}
