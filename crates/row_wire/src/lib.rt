// The row wire: a ring for each line, on which a record put has arrived.
#![tactic(auto)]

mod ring; // a queue in slots that are used in turn
pub mod rows; // the wire

pub use rows::RowWire;
