#![tactic(auto)]

pub mod outer; // outer rows
pub mod context; // what an operator is lent
pub mod fault; // why an operator has made no rows
pub mod columns; // output columns
pub mod select; // select and map
pub mod group; // group
pub mod join; // join
pub mod groupjoin; // groupjoin
mod operand; // terms, and the tests of two cells
mod choice; // the rows that pass
mod aggregate; // count, sum, min, max
mod keys; // the columns of a row at some positions
