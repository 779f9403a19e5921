// What a net answers to the events of a stream, and the line that is printed of each.
#![tactic(auto)]

pub mod answer; // what an event came to
pub mod line; // the printed line
mod text; // a text that is put together piece by piece

pub use answer::{Answer, Answered};
pub use line::Line;
