// One port: everything that it does by itself, without wire or board.
#![tactic(auto)]

pub mod dispatcher; // what a port keeps of a dispatcher
pub mod port; // a port, and what it does by itself
pub mod undecided; // the notices handed in and not decided
pub mod waiting; // the notices that wait for release

pub use port::Port;
