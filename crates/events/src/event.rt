// The events of a stream: the calls on a net, with their numbers as they came. Nothing is said of their range.
ghost use Rattle.events.specs.Letters.{letter_of};
ghost use Rattle.std.specs.Prelude.{◌≡◌};

use records::notice::HandIn;

#[derive(Clone, Copy, PartialEq, Eq, Debug)]
pub enum Event {
    HandIn(HandIn),
    Decide {
        port: u8,
        number: u16,
        cuts: [u16; 4],
    },
    Clear {
        port: u8,
        reading: u32,
    },
    Bring {
        from: u8,
        to: u8,
    },
    Fetch {
        port: u8,
        source: u8,
    },
    Release {
        port: u8,
    },
}

impl Event {
    // The letter by which the event is shown: a letter each, which no number of the case gives.
    pub fn letter(self) -> char
        ensures { result ≡ letter_of self }
    {
        match self {
            Event::HandIn(_) => 'H',
            Event::Decide { .. } => 'D',
            Event::Clear { .. } => 'C',
            Event::Bring { .. } => 'B',
            Event::Fetch { .. } => 'F',
            Event::Release { .. } => 'R',
        }
    }
}

// What stands at a place of a stream: the first field has the masks of the reach table, each later one is an event.
#[derive(Clone, Copy)]
pub enum Field<'a> {
    Table(&'a [u8]),
    Event(Event),
}
