// Runs event streams against a net.
#![tactic(auto)]

pub mod stepping; // one event
pub mod streaming; // a whole stream
