// Event streams: what is handed to the program, and what a port's radio box sends and takes, as fields of bytes.
#![tactic(auto)]

pub mod event; // the events, one case for each tag
pub mod reader; // reads a stream field by field
mod tag; // the tags of fields
pub mod writer; // writes a table and events as a stream

pub use event::{Event, Field};
pub use reader::Reader;
