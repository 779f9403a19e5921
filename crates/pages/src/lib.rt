// What is printed of a run.
#![tactic(auto)]

pub mod page; // its lines, one behind the other
