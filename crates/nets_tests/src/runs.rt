// The same calls over every wire and board: two ports and one late link.
use bag_wire::BagWire;
use boards::board::Board;
use boards::first_come::FirstCome;
use boards::outcome::Outcome;
use boards::queue::Queue;
use boards::spot::Spot;
use nets::net::Net;
use records::fault::NetFault;
use records::mask::Mask;
use records::notice::{Decided, HandIn};
use records::reach::Reach;
use records::stamp::Pair;
use row_wire::RowWire;
use std::process::Abort;
use std::test::Fail;
use wires::wire::Wire;

// Vessel 7 takes berth 4 of port 0, and both ports must know; dispatcher 0 of port 0 says so at 100.
const SEVEN: HandIn = HandIn {
    port: 0,
    dispatcher: 0,
    reading: 100,
    mask: 3,
    home: 0,
    berth: 4,
    action: 1,
    vessel: 7,
};

// Vessel 9 takes the same berth, as dispatcher 0 of port 1 says at 90.
const NINE: HandIn = HandIn {
    port: 1,
    reading: 90,
    vessel: 9,
    ..SEVEN
};

// Clock, step and port of what is released, its vessel, and the outcome; or the refusal.
pub fn released<W: Wire, B: Board>(
    net: &mut Net<W, B>,
    port: u8,
) -> Result<(u32, u16, u8, u16, Outcome), NetFault> {
    let (n, outcome) = net.release(port)?;
    Ok((
        n.stamp.pair.clock,
        n.stamp.pair.step,
        n.stamp.port,
        n.notice.vessel,
        outcome,
    ))
}

// Port 0 says at 100 that vessel 7 takes berth 4 of port 0, port 1 at 90 that vessel 9 does. Port 1 releases 7 first, and its
// own notice is then stamped above it, so that both ports release 7 and then 9.
fn one_order<W: Wire + Drop, B: Board + Drop>(
    rt: &impl Abort,
    wire: W,
    board: B,
    second: Outcome,
) -> Result<(), Fail> {
    let Ok(reach) = Reach::new(&[2, 1]) else {
        return Err(Fail::new("no table"));
    };
    let mut net = Net::open(reach, wire, board);
    let mut working = [Decided::default(); 16];
    assert_eq!(rt; net.hand_in(SEVEN), Ok(1));
    assert_eq!(rt; net.hand_in(NINE), Ok(1));
    assert_eq!(rt; net.decide(0, 0, [1, 0, 0, 0], &mut working), Ok((1, 1)));
    assert_eq!(rt; net.bring(0, 1), Ok(()));
    assert_eq!(rt; net.fetch(1, 0), Ok(()));
    assert_eq!(rt;
        released(&mut net, 1),
        Ok((100, 0, 0, 7, Outcome::Alongside))
    );
    assert_eq!(rt; net.decide(1, 0, [1, 0, 0, 0], &mut working), Ok((1, 1)));
    assert_eq!(rt; working[0].notice.vessel, 9);
    assert_eq!(rt;
        released(&mut net, 0),
        Err(NetFault::Held(Mask { bits: 2 }))
    );
    assert_eq!(rt; net.bring(1, 0), Ok(()));
    assert_eq!(rt; net.fetch(0, 1), Ok(()));
    assert_eq!(rt;
        released(&mut net, 0),
        Ok((100, 0, 0, 7, Outcome::Alongside))
    );
    assert_eq!(rt; released(&mut net, 0), Ok((100, 1, 1, 9, second)));
    // at port 1 it is held until port 0 says that it will stamp nothing lower
    assert_eq!(rt;
        released(&mut net, 1),
        Err(NetFault::Held(Mask { bits: 1 }))
    );
    assert_eq!(rt;
        net.clear(0, 0),
        Ok(Pair {
            clock: 100,
            step: 2,
        })
    );
    assert_eq!(rt; net.bring(0, 1), Ok(()));
    assert_eq!(rt; net.fetch(1, 0), Ok(()));
    assert_eq!(rt; released(&mut net, 1), Ok((100, 1, 1, 9, second)));
    assert_eq!(rt; net.vessel_at(Spot::new(0, 0, 4), 0), 7);
    assert_eq!(rt; net.vessel_at(Spot::new(1, 0, 4), 0), 7);
    assert_eq!(rt;
        net.vessels(Spot::new(0, 0, 4)),
        net.vessels(Spot::new(1, 0, 4))
    );
    Ok(())
}

#[test]
fn one_order_on_rows(rt: HostRuntime) -> Result<(), Fail> {
    one_order(&rt, RowWire::new(), FirstCome::new(), Outcome::Clash)?;
    one_order(&rt, RowWire::new(), Queue::new(), Outcome::Waits)
}

#[test]
fn one_order_on_a_bag(rt: HostRuntime) -> Result<(), Fail> {
    one_order(&rt, BagWire::new(), FirstCome::new(), Outcome::Clash)?;
    one_order(&rt, BagWire::new(), Queue::new(), Outcome::Waits)
}

// Port 0 clears at 100, so that port 1 releases its own notice about 9, stamped 95. What port 0 then decides is stamped above its
// clearance, whatever its dispatcher's clock reads: both ports release 9 and then 7.
#[test]
fn a_clearance_raises_the_floor(rt: HostRuntime) -> Result<(), Fail> {
    let Ok(reach) = Reach::new(&[2, 1]) else {
        return Err(Fail::new("no table"));
    };
    let mut net = Net::open(reach, RowWire::new(), FirstCome::new());
    let mut working = [Decided::default(); 16];
    assert_eq!(rt;
        net.clear(0, 100),
        Ok(Pair {
            clock: 100,
            step: 0,
        })
    );
    assert_eq!(rt; net.fetch(1, 0), Ok(()));
    assert_eq!(rt;
        net.hand_in(HandIn {
            reading: 95,
            ..NINE
        }),
        Ok(1)
    );
    assert_eq!(rt; net.decide(1, 0, [1, 0, 0, 0], &mut working), Ok((1, 1)));
    assert_eq!(rt;
        released(&mut net, 1),
        Ok((95, 0, 1, 9, Outcome::Alongside))
    );
    assert_eq!(rt;
        net.hand_in(HandIn {
            reading: 90,
            ..SEVEN
        }),
        Ok(1)
    );
    assert_eq!(rt; net.decide(0, 0, [1, 0, 0, 0], &mut working), Ok((1, 1)));
    assert_eq!(rt; net.fetch(0, 1), Ok(()));
    // the last word of port 1 is not held by the clearance that it brought along
    assert_eq!(rt;
        released(&mut net, 0),
        Ok((95, 0, 1, 9, Outcome::Alongside))
    );
    assert_eq!(rt;
        released(&mut net, 0),
        Err(NetFault::Held(Mask { bits: 2 }))
    );
    assert_eq!(rt; net.fetch(1, 0), Ok(()));
    assert_eq!(rt; released(&mut net, 1), Ok((100, 1, 0, 7, Outcome::Clash)));
    assert_eq!(rt; net.vessel_at(Spot::new(1, 0, 4), 0), 9);
    Ok(())
}
