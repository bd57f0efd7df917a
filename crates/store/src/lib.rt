#![tactic(auto)]

pub mod cells; // null, the range of numbers, copies
pub mod database; // refusal 10, and where the tables stand
pub mod rows; // the rows of a node, where they stand
pub mod layout; // each node's width, reach and place, each table's row count

// The largest row limit, and the most rows of a table.
pub const MOST_ROWS: u32 = 4096;
