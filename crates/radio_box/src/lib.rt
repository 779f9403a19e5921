// A port's radio box: what it does with each event, over any wire. It rests on events and wires alone.
#![tactic(auto)]

pub mod carrying; // an event carried over a wire
pub mod outcome; // what came of it
pub mod sample; // what is sent of an event

pub use carrying::carry;
pub use outcome::Carried;
