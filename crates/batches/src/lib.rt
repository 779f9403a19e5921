// The batch of a decide: its notices with their stamps, and what it takes of the undecided ones.
#![tactic(auto)]

pub mod batch; // the notices of a decide, with their stamps
pub mod counting; // how many notices go to a port or come from one, and how many copies they make
pub mod keeping; // what a batch takes of the undecided notices, and what it leaves
