// Which event a field says: every tag, with numbers that tell each byte from the others, the smallest and the largest.
use events::event::{Event, Field};
use events::reader::Reader;
use records::notice::HandIn;
use std::test::Fail;

// The event of the second field, if it is one.
fn second(stream: &[u8]) -> Option<Event> {
    let mut reader = Reader::new(stream);
    reader.next().ok()?;
    match reader.next() {
        Ok(Some(Field::Event(event))) => Some(event),
        _ => None,
    }
}

#[test]
fn the_first_field_has_the_masks(rt: HostRuntime) -> Result<(), Fail> {
    let mut reader = Reader::new(&[16, 0, 3, 6, 5, 3, 6, 0, 1, 2]);
    match reader.next() {
        Ok(Some(Field::Table(masks))) => assert!(rt;
            masks.len() == 3 && masks[0] == 6 && masks[1] == 5 && masks[2] == 3
        ),
        _ => return Err(Fail::new("no table")),
    }
    assert_eq!(rt; reader.place(), 6);
    Ok(())
}

#[test]
fn hand_in(rt: HostRuntime) {
    let told = second(&[
        16, 0, 2, 2, 1, 1, 0, 12, 3, 4, 1, 2, 3, 4, 5, 6, 7, 8, 9, 10,
    ]);
    let hand_in = Event::HandIn(HandIn {
        port: 3,
        dispatcher: 4,
        reading: 0x01020304,
        mask: 5,
        home: 6,
        berth: 7,
        action: 8,
        vessel: 0x090a,
    });
    assert_eq!(rt; told, Some(hand_in));
    assert_eq!(rt; hand_in.letter(), 'H');
    let largest = second(&[
        16, 0, 2, 2, 1, 1, 0, 12, 255, 255, 255, 255, 255, 255, 255, 255, 255, 255, 255, 255,
    ]);
    let all = Event::HandIn(HandIn {
        port: 255,
        dispatcher: 255,
        reading: 0xffffffff,
        mask: 255,
        home: 255,
        berth: 255,
        action: 255,
        vessel: 0xffff,
    });
    assert_eq!(rt; largest, Some(all));
}

#[test]
fn decide(rt: HostRuntime) {
    let told = second(&[
        16, 0, 2, 2, 1, 2, 0, 11, 1, 0, 2, 0, 3, 1, 4, 2, 5, 255, 255,
    ]);
    let decide = Event::Decide {
        port: 1,
        number: 2,
        cuts: [3, 0x0104, 0x0205, 0xffff],
    };
    assert_eq!(rt; told, Some(decide));
    assert_eq!(rt; decide.letter(), 'D');
}

#[test]
fn clear(rt: HostRuntime) {
    let told = second(&[16, 0, 2, 2, 1, 3, 0, 5, 1, 255, 2, 1, 0]);
    let clear = Event::Clear {
        port: 1,
        reading: 0xff020100,
    };
    assert_eq!(rt; told, Some(clear));
    assert_eq!(rt; clear.letter(), 'C');
}

#[test]
fn the_short_ones(rt: HostRuntime) {
    let bring = Event::Bring { from: 7, to: 8 };
    assert_eq!(rt; second(&[16, 0, 2, 2, 1, 4, 0, 2, 7, 8]), Some(bring));
    assert_eq!(rt; bring.letter(), 'B');
    let fetch = Event::Fetch { port: 7, source: 8 };
    assert_eq!(rt; second(&[16, 0, 2, 2, 1, 5, 0, 2, 7, 8]), Some(fetch));
    assert_eq!(rt; fetch.letter(), 'F');
    let release = Event::Release { port: 9 };
    assert_eq!(rt; second(&[16, 0, 2, 2, 1, 6, 0, 1, 9]), Some(release));
    assert_eq!(rt; release.letter(), 'R');
    // no range is looked at: a port 0 and a port 255 are read alike
    assert_eq!(rt;
        second(&[16, 0, 2, 2, 1, 6, 0, 1, 0]),
        Some(Event::Release { port: 0 })
    );
    assert_eq!(rt;
        second(&[16, 0, 2, 2, 1, 6, 0, 1, 255]),
        Some(Event::Release { port: 255 })
    );
}
