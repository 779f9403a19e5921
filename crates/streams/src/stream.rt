// Reads a whole stream: its table and its events, or the first refusal with its place and the part that it came from.
ghost use Rattle.events.specs.Streams.{SaysRest, ReadWhole};
ghost use Rattle.records.specs.Tables.{masks_of};
ghost use Rattle.streams.specs.Whole.{RestRefused, FirstFault};
ghost use Rattle.std.specs.Prelude.{MatchResult};

use crate::behind::{EventReader, open_stream};
use crate::part::{Refusal, StreamFault};
use events::event::Event;
use records::reach::Reach;
use std::alloc::Global;

// What a whole stream says: a table, and then events.
#[derive(Drop)]
pub struct Stream {
    pub table: Reach,
    pub events: Vec<Event>,
}

// The events from the reader's place to the end of the stream.
fn read_events(heap: Global, reader: &mut EventReader) -> Result<Vec<Event>, StreamFault>
    ensures { MatchResult result (λ v. SaysRest reader.old.stream.now reader.old.place v.items) (λ f. RestRefused reader.old.stream.now reader.old.place f) }
{
    let mut events = Vec::new(heap);
    'fields: loop {
        let place = reader.place();
        let Some(event) = reader.next()? else {
            return Ok(events);
        };
        events
            .push(event)
            .map_err(|_| StreamFault::NoMemory { place })?;
    }
}

// Reads the stream from its first byte to its last.
pub fn read_stream(heap: Global, stream: &[u8]) -> Result<Stream, StreamFault>
    ensures { MatchResult result (λ w. ReadWhole stream.now (masks_of w.table) w.events.items) (λ f. FirstFault stream.now f) }
{
    let opened = open_stream(stream).map_err(|part| Refusal { place: 0, part })?;
    let events = read_events(heap, &mut opened.events(stream))?;
    Ok(Stream {
        table: opened.table(),
        events,
    })
}
