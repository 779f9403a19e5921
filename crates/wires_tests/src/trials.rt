// What any wire must stand, over both kinds.
use bag_wire::BagWire;
use records::fault::NetFault;
use records::notice::Record;
use records::stamp::{Pair, Stamp};
use row_wire::RowWire;
use std::process::Abort;
use wires::ends::Ends;
use wires::wire::Wire;

// The k-th record of a line: no two of them are alike.
pub fn numbered(ends: Ends, k: u8) -> Record {
    let clock = ends.from as u32 * 65_536 + ends.to as u32 * 256 + k as u32;
    let pair = Pair { clock, step: 0 };
    Record::Empty(Stamp {
        pair,
        port: ends.from,
    })
}

pub fn put_all<W: Wire>(rt: &impl Abort, wire: &mut W, ends: Ends, many: u8) {
    for k in 0..many {
        assert_eq!(rt; wire.put(ends, numbered(ends, k)), Ok(()));
    }
}

pub fn take_all<W: Wire>(rt: &impl Abort, wire: &mut W, ends: Ends, many: u8) {
    for k in 0..many {
        assert_eq!(rt; wire.look(ends), Some(numbered(ends, k)));
        assert_eq!(rt; wire.take(ends), Some(numbered(ends, k)));
    }
    assert_eq!(rt; wire.look(ends), None);
    assert_eq!(rt; wire.take(ends), None);
}

// Every line is filled to its depth and not beyond, and keeps its own records in their order.
fn fills<W: Wire>(rt: &impl Abort, wire: &mut W, depth: u8) {
    for from in 0..8u8 {
        for to in 0..8u8 {
            if from != to {
                let ends = Ends { from, to };
                assert_eq!(rt; wire.free(ends), depth as usize);
                put_all(rt, wire, ends, depth);
                assert_eq!(rt; wire.free(ends), 0);
                assert_eq!(rt;
                    wire.put(ends, numbered(ends, depth)),
                    Err(NetFault::LineFull)
                );
            }
        }
    }
}

fn drains<W: Wire>(rt: &impl Abort, wire: &mut W, depth: u8) {
    for to in 0..8u8 {
        for from in 0..8u8 {
            if from != to {
                let ends = Ends { from, to };
                wire.bring(ends);
                take_all(rt, wire, ends, depth);
                assert_eq!(rt; wire.free(ends), depth as usize);
            }
        }
    }
}

// Nothing is left on any line, even after a bring.
fn is_empty<W: Wire>(rt: &impl Abort, wire: &mut W, depth: u8) {
    for from in 0..8u8 {
        for to in 0..8u8 {
            if from != to {
                let ends = Ends { from, to };
                wire.bring(ends);
                assert_eq!(rt; wire.look(ends), None);
                assert_eq!(rt; wire.free(ends), depth as usize);
            }
        }
    }
}

// A pair of numbers that is no line: a port and itself, or a number above 7.
fn no_line<W: Wire>(rt: &impl Abort, wire: &mut W, ends: Ends) {
    assert_eq!(rt; wire.free(ends), 0);
    assert_eq!(rt; wire.put(ends, numbered(ends, 0)), Err(NetFault::LineFull));
    wire.bring(ends);
    assert_eq!(rt; wire.look(ends), None);
    assert_eq!(rt; wire.take(ends), None);
}

fn no_lines<W: Wire>(rt: &impl Abort, wire: &mut W) {
    for port in 0..=255u8 {
        no_line(
            rt,
            wire,
            Ends {
                from: port,
                to: port,
            },
        );
    }
    for port in 0..8u8 {
        for other in [8u8, 9, 63, 64, 255] {
            no_line(
                rt,
                wire,
                Ends {
                    from: port,
                    to: other,
                },
            );
            no_line(
                rt,
                wire,
                Ends {
                    from: other,
                    to: port,
                },
            );
        }
    }
    no_line(rt, wire, Ends { from: 8, to: 255 });
}

fn stands<W: Wire>(rt: &impl Abort, wire: &mut W, depth: u8) {
    is_empty(rt, wire, depth);
    no_lines(rt, wire);
    fills(rt, wire, depth);
    no_lines(rt, wire);
    drains(rt, wire, depth);
    is_empty(rt, wire, depth);
    fills(rt, wire, depth);
    wire.empty();
    is_empty(rt, wire, depth);
    fills(rt, wire, depth);
    drains(rt, wire, depth);
}

#[test]
fn row_wire_stands(rt: HostRuntime) {
    stands(&rt, &mut RowWire::new(), 16);
}

#[test]
fn bag_wire_stands(rt: HostRuntime) {
    stands(&rt, &mut BagWire::new(), 8);
}
