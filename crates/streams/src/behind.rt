// Reads a stream event by event, behind its table.
ghost use Rattle.std.specs.Prelude.{◌≡◌, ◌<◌, ◌≤◌, length, IfOk, MatchResult, OnErr, OnSome};
ghost use Rattle.events.specs.Fields.{read_at};
ghost use Rattle.events.specs.Streams.{FirstTable};
ghost use Rattle.records.specs.Tables.{masks_of};
ghost use Rattle.streams.specs.Streams.{FirstRefused, EventAnswers};

use crate::part::{Part, Refusal};
use events::event::{Event, Field};
use events::reader::{LONGEST, Reader};
use records::fault::ReaderFault;
use records::reach::Reach;

// What the first field of a stream says: the table. The events begin behind it. The stream is handed to `events` once
// more, since a `Result` that holds a reference beside a table is not covered by the prover.
#[derive(Clone, Copy)]
pub struct Opened {
    table: Reach,
    behind: usize,
    ghost later: { 0 < behind },
}

// A reader behind the table of its stream: from here on each field is an event.
#[derive(Drop)]
pub struct EventReader<'a> {
    stream: &'a [u8],
    place: usize,
    ghost behind: { 0 < place },
}

// Reads the first field.
pub fn open_stream(stream: &[u8]) -> Result<Opened, Part>
    ensures { MatchResult result (λ o. FirstTable stream.now (masks_of o.table) o.behind) (λ part. FirstRefused stream.now part) }
{
    let mut reader = Reader::new(stream);
    let Some(Field::Table(masks)) = reader.next()? else {
        unreachable()
    };
    Ok(Opened {
        table: Reach::new(masks)?,
        behind: reader.place(),
    })
}

impl Opened {
    pub fn table(&self) -> Reach
        ensures { result ≡ self.now.table }
    {
        self.table
    }

    // The reader behind the table of the stream.
    pub fn events<'a>(&self, stream: &'a [u8]) -> EventReader<'a>
        ensures place { result.place ≡ self.now.behind }
        ensures stream { result.stream.now ≡ stream.now }
    {
        EventReader {
            stream,
            place: self.behind,
        }
    }
}

impl<'a> EventReader<'a> {
    // Where the field begins that is read next.
    pub fn place(&self) -> usize
        ensures { result ≡ self.now.place }
    {
        self.place
    }

    // The event at the place, which moves behind it; none at the end of the stream. Where the field is refused, the
    // reader stays at it.
    pub fn next(&mut self) -> Result<Option<Event>, Refusal>
        ensures stream { self.new.stream.now ≡ self.old.stream.now }
        ensures same { OnErr result (self.new ≡ self.old) }
        ensures onward { IfOk result (λ o. OnSome o ((self.old.place < self.new.place) × (self.new.place ≤ length self.old.stream.now))) }
        ensures answers { EventAnswers (read_at self.old.stream.now self.old.place) self.old.place self.new.place result }
    {
        let place = self.place;
        let Some(mut reader) = Reader::at(self.stream, place) else {
            // beyond the end there is nothing, but a stream that is too long is refused at every place
            if self.stream.len() > LONGEST {
                return Err(Refusal {
                    place,
                    part: Part::Reader(ReaderFault::StreamTooLong),
                });
            }
            return Ok(None);
        };
        let found = reader.next().map_err(|fault| Refusal {
            place,
            part: Part::Reader(fault),
        })?;
        match found {
            Some(Field::Event(event)) => {
                self.place = reader.place();
                Ok(Some(event))
            }
            Some(Field::Table(_)) => unreachable(),
            None => Ok(None),
        }
    }
}
