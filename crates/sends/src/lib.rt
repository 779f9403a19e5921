// What a decide and a clear put on the lines, over any kind of wire.
#![tactic(auto)]

pub mod room; // whether the lines have room for the copies of a batch
pub mod sending; // the copies of a batch, or a clearance, put on the lines

pub use room::has_room;
pub use sending::{send_batch, send_clearance};
