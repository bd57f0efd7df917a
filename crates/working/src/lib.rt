#![tactic(auto)]

mod operate; // a node's rows from its inputs'
pub mod nodes; // nodes in order, and the walk over bindings
