#![tactic(auto)]

pub mod reads; // the columns that each node reads, and a new domain's keys
pub mod tables; // what is known of a plan's nodes
pub mod finish; // the nodes of a rule, once its inputs stand
pub mod put; // a node under a domain
