// What carries records from port to port: the trait that every kind of wire meets, and what can be done over any of them.
#![tactic(auto)]

pub mod ends; // the two ports of a line
pub mod sending; // a record to each port of a mask, or to none
pub mod wire; // the trait, with what its lines mean

pub use ends::Ends;
pub use sending::send;
pub use wire::Wire;
