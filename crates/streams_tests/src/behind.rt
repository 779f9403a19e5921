// Event by event, behind the table.
use events::event::Event;
use records::fault::{ReaderFault, TableFault};
use std::process::Abort;
use std::test::Fail;
use streams::behind::{EventReader, open_stream};
use streams::part::{Part, Refusal};

// The part that refuses the first field.
fn refusal(stream: &[u8]) -> Option<Part> {
    open_stream(stream).err()
}

#[test]
fn the_table_first(rt: HostRuntime) {
    assert_eq!(rt; refusal(&[16, 0, 2, 2, 1]), None);
    assert_eq!(rt; refusal(&[]), Some(Part::Reader(ReaderFault::LooseBytes)));
    assert_eq!(rt;
        refusal(&[6, 0, 1, 0]),
        Some(Part::Reader(ReaderFault::MisplacedTag))
    );
    assert_eq!(rt;
        refusal(&[16, 0, 1, 0]),
        Some(Part::Table(TableFault::WrongCount))
    );
}

// A release at place 6, a fetch at 10, and one byte too many at 15.
fn then_events(rt: &impl Abort, mut reader: EventReader) {
    assert_eq!(rt; reader.place(), 6);
    assert_eq!(rt; reader.next(), Ok(Some(Event::Release { port: 2 })));
    assert_eq!(rt; reader.place(), 10);
    let fetch = Event::Fetch { port: 2, source: 0 };
    assert_eq!(rt; reader.next(), Ok(Some(fetch)));
    assert_eq!(rt; reader.place(), 15);
    let part = Part::Reader(ReaderFault::LooseBytes);
    let loose = Refusal { place: 15, part };
    assert_eq!(rt; reader.next(), Err(loose));
    assert_eq!(rt; reader.place(), 15);
    assert_eq!(rt; reader.next(), Err(loose));
}

#[test]
fn events_behind_it(rt: HostRuntime) -> Result<(), Fail> {
    let stream = [16, 0, 3, 6, 5, 3, 6, 0, 1, 2, 5, 0, 2, 2, 0, 99];
    let opened = open_stream(&stream)?;
    assert_eq!(rt; opened.table().ports(), 3);
    then_events(&rt, opened.events(&stream));
    // of another stream, it is at the same place; beyond the end there is nothing
    let mut elsewhere = opened.events(&stream[0..10]);
    assert_eq!(rt; elsewhere.next(), Ok(Some(Event::Release { port: 2 })));
    assert_eq!(rt; elsewhere.next(), Ok(None));
    let mut nowhere = opened.events(&stream[0..0]);
    assert_eq!(rt; nowhere.next(), Ok(None));
    Ok(())
}
