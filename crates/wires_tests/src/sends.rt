// A record to each port of a mask, or to none.
use crate::trials::{numbered, put_all};
use bag_wire::BagWire;
use records::fault::NetFault;
use records::mask::Mask;
use records::notice::Record;
use row_wire::RowWire;
use std::process::Abort;
use wires::ends::Ends;
use wires::sending::send;
use wires::wire::Wire;

fn sample() -> Record {
    numbered(Ends { from: 3, to: 0 }, 9)
}

// Sent from port 3 on an empty wire, the record is on the line to each port of the mask, and on no other.
fn reaches<W: Wire>(rt: &impl Abort, wire: &mut W, bits: u8, depth: usize) {
    wire.empty();
    assert_eq!(rt; send(wire, 3, Mask { bits }, sample()), Ok(()));
    for to in 0..8u8 {
        if to != 3 {
            let ends = Ends { from: 3, to };
            wire.bring(ends);
            let named = bits >> to & 1 == 1;
            assert_eq!(rt; wire.take(ends), if named { Some(sample()) } else { None });
            assert_eq!(rt; wire.free(ends), depth);
        }
    }
    for from in 0..8u8 {
        if from != 3 {
            let ends = Ends { from, to: 3 };
            wire.bring(ends);
            assert_eq!(rt; wire.look(ends), None);
        }
    }
}

// Nothing is put where a line of the mask is full or is no line.
fn refuses<W: Wire>(rt: &impl Abort, wire: &mut W, depth: u8) {
    let room = depth as usize;
    wire.empty();
    put_all(rt, wire, Ends { from: 3, to: 7 }, depth);
    for bits in [128u8, 129, 240, 247] {
        assert_eq!(rt;
            send(wire, 3, Mask { bits }, sample()),
            Err(NetFault::LineFull)
        );
    }
    for bits in [8u8, 9, 15, 255] {
        assert_eq!(rt;
            send(wire, 3, Mask { bits }, sample()),
            Err(NetFault::LineFull)
        );
    }
    for from in [8u8, 255] {
        assert_eq!(rt;
            send(wire, from, Mask { bits: 1 }, sample()),
            Err(NetFault::LineFull)
        );
    }
    for to in 0..7u8 {
        if to != 3 {
            assert_eq!(rt; wire.free(Ends { from: 3, to }), room);
        }
    }
    assert_eq!(rt; send(wire, 3, Mask { bits: 119 }, sample()), Ok(()));
    assert_eq!(rt; send(wire, 8, Mask { bits: 0 }, sample()), Ok(()));
    assert_eq!(rt; wire.free(Ends { from: 3, to: 6 }).wrapping_add(1), room);
    assert_eq!(rt; wire.free(Ends { from: 3, to: 7 }), 0);
}

#[test]
fn sends_on_rows(rt: HostRuntime) {
    let mut wire = RowWire::new();
    for bits in [0u8, 1, 4, 128, 118, 247] {
        reaches(&rt, &mut wire, bits, 16);
    }
    refuses(&rt, &mut wire, 16);
}

#[test]
fn sends_on_the_bag(rt: HostRuntime) {
    let mut wire = BagWire::new();
    for bits in [0u8, 1, 4, 128, 118, 247] {
        reaches(&rt, &mut wire, bits, 8);
    }
    refuses(&rt, &mut wire, 8);
}
