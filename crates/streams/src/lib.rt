// Whole event streams: the table first, and then the events, one by one or all at once.
#![tactic(auto)]

pub mod behind; // reads the table, and then event by event
pub mod input; // what a program reads of a stream
pub mod part; // where and why a stream ends a run
pub mod stream; // reads a whole stream

pub use behind::{EventReader, open_stream};
pub use stream::{Stream, read_stream};
