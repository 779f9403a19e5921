// A batch: the notices of a decide, with their stamps.
use ordered::Sorted;
use records::notice::Decided;
use records::stamp::Pair;

pub mod stamping; // the stamping rule, and a batch stamped by it

// The notices, by rising stamp, and the floor that they leave.
#[derive(Clone, Copy)]
pub struct Batch {
    notices: Sorted<Decided, 16>,
    floor: Option<Pair>,
}

// Why a batch is not stamped.
#[derive(Clone, Copy, PartialEq, Eq, Debug)]
pub enum BatchFault {
    // there are more than 16 undecided notices
    TooMany,
    // a step above 65,535 would be needed
    StepUsedUp,
}
