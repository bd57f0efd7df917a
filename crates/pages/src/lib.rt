#![tactic(auto)]

pub mod sets; // read columns as a u64 set
pub mod domain; // a domain, and where an outer column stands in it
pub mod page; // what has been written
pub mod shift; // where the columns of a node stand once others are in front
pub mod writer; // the items of a node that is written next
pub mod output; // the new words
