// Fetched records, who holds them, and their release.
use crate::trials::{decided, notice, stamp};
use ports::port::Port;
use records::fault::NetFault;
use records::mask::Mask;
use records::notice::Record;
use records::reach::Reach;
use records::stamp::Pair;
use std::test::Fail;

// Eight of a source wait; an empty notice of it is taken all the same, and so is one of another source. What no line of an
// opened net carries is refused.
#[test]
fn eight_of_a_source_wait(rt: HostRuntime) {
    let mut port = Port::new(1);
    for step in 0..8u16 {
        assert_eq!(rt; port.admit(3, notice(100, step, 3, 2)), Ok(()));
    }
    let cases = [
        (3, notice(100, 8, 3, 2), Err(NetFault::SourceWaitingFull)),
        (3, Record::Empty(stamp(100, 8, 3)), Ok(())),
        (7, notice(100, 0, 7, 2), Ok(())),
        (
            8,
            Record::Empty(stamp(100, 0, 8)),
            Err(NetFault::NoSuchPort),
        ),
        (4, notice(100, 0, 5, 2), Err(NetFault::SourceWaitingFull)),
        (4, notice(100, 0, 4, 253), Err(NetFault::SourceWaitingFull)),
        (4, notice(100, 0, 4, 255), Ok(())),
    ];
    for (source, record, answer) in cases {
        assert_eq!(rt; port.admit(source, record), answer);
    }
}

// A clearance that is missing or below the pair holds; an equal one does not, nor does one who cannot send.
#[test]
fn holders_are_those_who_may_send_lower(rt: HostRuntime) -> Result<(), Fail> {
    let mut port = Port::new(0);
    for (source, clock, step) in [(1, 100, 0), (2, 100, 1), (3, 99, 65535), (4, 101, 0)] {
        assert_eq!(rt;
            port.admit(source, Record::Empty(stamp(clock, step, source))),
            Ok(())
        );
    }
    let pair = Pair {
        clock: 100,
        step: 1,
    };
    // the masks of a table, and who of port 0's senders holds the pair
    let cases = [
        ([0, 1, 0, 0, 0, 0, 0, 0], 2),
        ([0, 0, 1, 0, 0, 0, 0, 0], 0),
        ([0, 0, 0, 1, 0, 0, 0, 0], 8),
        ([0, 0, 0, 0, 1, 0, 0, 0], 0),
        ([0, 0, 0, 0, 0, 1, 0, 0], 32),
        ([0, 1, 1, 1, 1, 1, 1, 1], 234),
        ([254, 0, 0, 0, 0, 0, 0, 0], 0),
    ];
    for (masks, holders) in cases {
        let Ok(reach) = Reach::new(&masks) else {
            return Err(Fail::new("no table"));
        };
        assert_eq!(rt; port.holders(&reach, pair), Mask { bits: holders });
    }
    Ok(())
}

// By stamp, whatever the order of arrival; the floor rises to each that is higher, and the next pair is above it.
#[test]
fn the_lowest_leaves_first(rt: HostRuntime) {
    let mut port = Port::new(0);
    port.clear(Pair {
        clock: 100,
        step: 0,
    });
    for (source, step) in [(2, 1), (1, 1), (7, 0)] {
        assert_eq!(rt; port.admit(source, notice(100, step, source, 1)), Ok(()));
    }
    let cases = [
        (Some(decided(100, 0, 7, 1)), 1),
        (Some(decided(100, 1, 1, 1)), 2),
        (Some(decided(100, 1, 2, 1)), 2),
        (None, 2),
    ];
    for (lowest, step) in cases {
        assert_eq!(rt; port.lowest(), lowest);
        assert_eq!(rt; port.release(), lowest);
        assert_eq!(rt; port.clearance(90), Ok(Pair { clock: 100, step }));
    }
}
