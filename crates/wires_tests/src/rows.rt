// What only the row wire does: a record put has arrived, and its rings go round.
use crate::trials::numbered;
use row_wire::RowWire;
use std::process::Abort;
use wires::ends::Ends;
use wires::wire::Wire;

#[test]
fn arrives_at_once(rt: HostRuntime) {
    let mut wire = RowWire::new();
    let there = Ends { from: 3, to: 4 };
    let back = Ends { from: 4, to: 3 };
    assert_eq!(rt; wire.put(there, numbered(there, 1)), Ok(()));
    assert_eq!(rt; wire.look(there), Some(numbered(there, 1)));
    assert_eq!(rt; wire.look(back), None);
}

// 200 records through a ring that never holds more than `held`: for 16 it is full at every turn.
fn goes_round(rt: &impl Abort, held: u8) {
    let mut wire = RowWire::new();
    let ends = Ends { from: 0, to: 7 };
    for k in 0..200u8 {
        assert_eq!(rt; wire.put(ends, numbered(ends, k)), Ok(()));
        if k + 1 >= held {
            assert_eq!(rt; wire.take(ends), Some(numbered(ends, k + 1 - held)));
        }
    }
}

#[test]
fn rings_go_round(rt: HostRuntime) {
    for held in [1u8, 2, 5, 15, 16] {
        goes_round(&rt, held);
    }
}
