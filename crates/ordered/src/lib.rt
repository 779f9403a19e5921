// One ordered list for every kind of entry whose order is total.
#![tactic(auto)]

pub mod entry; // what an entry shows of its order
pub mod list; // insert and take-first, over memory of the caller's
pub mod sorted; // the list in memory of its own

pub use entry::Entry;
pub use list::{Full, insert, take_first};
pub use sorted::Sorted;
