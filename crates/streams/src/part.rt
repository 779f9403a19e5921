// Where and why a stream ends a run.
ghost use Rattle.streams.specs.Numbers.{part_number};
ghost use Rattle.streams.specs.declared.part.Part.TheVariants.{Reader, Table};
ghost use Rattle.streams.specs.declared.part.StreamFault.TheVariants.{Refused};
ghost use Rattle.std.specs.Prelude.{◌≡◌};

use records::fault::{ReaderFault, TableFault};

// The part of a run that refuses, with its own fault.
#[derive(Clone, Copy, PartialEq, Eq, Debug)]
pub enum Part {
    Reader(ReaderFault),
    Table(TableFault),
}

// A refusal met in a stream: the place of its field, and the part that it came from.
#[derive(Clone, Copy, PartialEq, Eq, Debug)]
pub struct Refusal {
    pub place: usize,
    pub part: Part,
}

// Why a stream is not read or run to its end: it is refused, or there was no memory for what the field at this place
// says.
#[derive(Clone, Copy, PartialEq, Eq, Debug)]
pub enum StreamFault {
    Refused(Refusal),
    NoMemory { place: usize },
}

impl From<ReaderFault> for Part {
    ghost from_gives = { λ fault part. part ≡ Reader fault };

    fn from(fault: ReaderFault) -> Part {
        Part::Reader(fault)
    }
}

impl From<TableFault> for Part {
    ghost from_gives = { λ fault part. part ≡ Table fault };

    fn from(fault: TableFault) -> Part {
        Part::Table(fault)
    }
}

impl From<Refusal> for StreamFault {
    ghost from_gives = { λ refusal fault. fault ≡ Refused refusal };

    fn from(refusal: Refusal) -> StreamFault {
        StreamFault::Refused(refusal)
    }
}

impl Part {
    // The number of its fault.
    pub fn number(self) -> u8
        ensures { result ≡ part_number self }
    {
        match self {
            Part::Reader(why) => why.number(),
            Part::Table(why) => why.number(),
        }
    }
}
