// What an event of a stream came to.
use boards::outcome::Outcome;
use events::event::Event;
use records::fault::NetFault;
use records::notice::Decided;
use records::stamp::Pair;

// What the net answered to an event that it took.
#[derive(Clone, Copy, PartialEq, Eq, Debug)]
pub enum Answer {
    // hand in: the dispatcher's count
    Count(u16),
    // decide: how many notices the batch has, and how many copies of them are on their way
    Batch { notices: usize, copies: usize },
    // clear: the pair stamped
    Clearance(Pair),
    // bring and fetch answer nothing more
    Done,
    // release: the notice, and what came of it on the port's board
    Released { notice: Decided, outcome: Outcome },
}

// An event of a stream, the place of its field, and what the net answered, or why it refused.
#[derive(Clone, Copy, PartialEq, Eq, Debug)]
pub struct Answered {
    pub place: usize,
    pub event: Event,
    pub answer: Result<Answer, NetFault>,
}
