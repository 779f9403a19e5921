// What only the bag wire does: a bring, and nothing else, lets all of its line arrive.
use crate::trials::{numbered, put_all, take_all};
use bag_wire::BagWire;
use wires::ends::Ends;
use wires::wire::Wire;

#[test]
fn put_after_bring_waits(rt: HostRuntime) {
    let mut wire = BagWire::new();
    let there = Ends { from: 1, to: 2 };
    assert_eq!(rt; wire.put(there, numbered(there, 0)), Ok(()));
    assert_eq!(rt; wire.look(there), None);
    assert_eq!(rt; wire.take(there), None);
    wire.bring(there);
    assert_eq!(rt; wire.look(there), Some(numbered(there, 0)));
    assert_eq!(rt; wire.put(there, numbered(there, 1)), Ok(()));
    assert_eq!(rt; wire.take(there), Some(numbered(there, 0)));
    assert_eq!(rt; wire.look(there), None);
    wire.bring(there);
    assert_eq!(rt; wire.take(there), Some(numbered(there, 1)));
}

#[test]
fn bring_is_for_one_line(rt: HostRuntime) {
    let mut wire = BagWire::new();
    let there = Ends { from: 1, to: 2 };
    let back = Ends { from: 2, to: 1 };
    let aside = Ends { from: 1, to: 3 };
    put_all(&rt, &mut wire, there, 8);
    put_all(&rt, &mut wire, back, 8);
    put_all(&rt, &mut wire, aside, 8);
    wire.bring(there);
    assert_eq!(rt; wire.look(back), None);
    assert_eq!(rt; wire.look(aside), None);
    take_all(&rt, &mut wire, there, 8);
    assert_eq!(rt; wire.look(back), None);
    wire.bring(aside);
    take_all(&rt, &mut wire, aside, 8);
    wire.bring(back);
    take_all(&rt, &mut wire, back, 8);
}
