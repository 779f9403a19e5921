// The notices of a port that are handed in and not decided.
use ordered::Sorted;
use records::notice::Handed;

pub mod keeping; // adding a notice, and what a batch leaves

// At most 16, by clock, dispatcher, count.
#[derive(Clone, Copy)]
pub struct Undecided {
    notices: Sorted<Handed, 16>,
}
