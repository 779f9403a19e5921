// What is written, byte for byte; both sides of the memory's limit.
use events::event::Event;
use events::writer::write;
use records::notice::HandIn;
use records::reach::Reach;

// How many bytes are written, or the refusal's number.
fn written(events: &[Event], out: &mut [u8]) -> Result<usize, u8> {
    let table = Reach::new(&[2, 1]).map_err(|fault| fault.number())?;
    write(&table, events, out).map_err(|fault| fault.number())
}

#[test]
fn no_events(rt: HostRuntime) {
    let mut exact = [9; 5];
    assert_eq!(rt; written(&[], &mut exact), Ok(5));
    assert_eq!(rt; exact, [16, 0, 2, 2, 1]);
    let mut long = [9; 7];
    assert_eq!(rt; written(&[], &mut long), Ok(5));
    assert_eq!(rt; long, [16, 0, 2, 2, 1, 9, 9]);
    let mut short = [9; 4];
    assert_eq!(rt; written(&[], &mut short), Err(26));
    assert_eq!(rt; short, [9, 9, 9, 9]);
    assert_eq!(rt; written(&[], &mut []), Err(26));
}

#[test]
fn every_tag(rt: HostRuntime) {
    let hand_in = Event::HandIn(HandIn {
        port: 1,
        dispatcher: 2,
        reading: 0x03040506,
        mask: 7,
        home: 8,
        berth: 9,
        action: 10,
        vessel: 0x0b0c,
    });
    let mut out = [0; 20];
    assert_eq!(rt; written(&[hand_in], &mut out), Ok(20));
    assert_eq!(rt;
        out,
        [
            16, 0, 2, 2, 1, 1, 0, 12, 1, 2, 3, 4, 5, 6, 7, 8, 9, 10, 11, 12,
        ]
    );
    let decide = Event::Decide {
        port: 255,
        number: 0xffff,
        cuts: [0, 1, 0x0203, 0xffff],
    };
    let mut out = [0; 19];
    assert_eq!(rt; written(&[decide], &mut out), Ok(19));
    assert_eq!(rt;
        out,
        [
            16, 0, 2, 2, 1, 2, 0, 11, 255, 255, 255, 0, 0, 0, 1, 2, 3, 255, 255,
        ]
    );
    let short_ones = [
        Event::Clear {
            port: 0,
            reading: 0xffffffff,
        },
        Event::Bring { from: 1, to: 2 },
        Event::Fetch { port: 3, source: 4 },
        Event::Release { port: 5 },
    ];
    let mut out = [0; 27];
    assert_eq!(rt; written(&short_ones, &mut out), Ok(27));
    assert_eq!(rt;
        out,
        [
            16, 0, 2, 2, 1, 3, 0, 5, 0, 255, 255, 255, 255, 4, 0, 2, 1, 2, 5, 0, 2, 3, 4, 6, 0, 1,
            5,
        ]
    );
}
