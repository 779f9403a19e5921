// The bag wire: one journal for all lines, in the order of putting. A bring, and nothing else, lets all of its line
// arrive.
#![tactic(auto)]

pub mod bag; // the wire
mod entry; // one record in the journal
mod journal; // what is found, marked and moved in it

pub use bag::BagWire;
