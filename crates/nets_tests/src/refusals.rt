// Each call's own refusals, where a run reaches them.
use bag_wire::BagWire;
use boards::first_come::FirstCome;
use nets::net::Net;
use records::fault::NetFault;
use records::notice::{Decided, HandIn};
use records::reach::Reach;
use records::stamp::Pair;
use std::test::Fail;
use wires::wire::Wire;

// Three ports: 0 sends to 1 and 2, 1 sends to 0, 2 to nobody.
fn net() -> Result<Net<BagWire, FirstCome>, Fail> {
    match Reach::new(&[6, 1, 0]) {
        Ok(reach) => Ok(Net::open(reach, BagWire::new(), FirstCome::new())),
        Err(_) => Err(Fail::new("no table")),
    }
}

#[test]
fn a_late_bag(rt: HostRuntime) -> Result<(), Fail> {
    let mut net = net()?;
    assert_eq!(rt; net.fetch(1, 0), Err(NetFault::NothingArrived));
    assert_eq!(rt; net.clear(0, 50), Ok(Pair { clock: 50, step: 0 }));
    // nothing arrives until it is brought
    assert_eq!(rt; net.fetch(1, 0), Err(NetFault::NothingArrived));
    assert_eq!(rt; net.bring(0, 1), Ok(()));
    assert_eq!(rt; net.fetch(1, 0), Ok(()));
    assert_eq!(rt; net.fetch(2, 0), Err(NetFault::NothingArrived));
    assert_eq!(rt; net.fetch(0, 2), Err(NetFault::OutOfReach));
    assert_eq!(rt; net.fetch(3, 0), Err(NetFault::NoSuchPort));
    assert_eq!(rt; net.fetch(0, 3), Err(NetFault::NoSuchPort));
    assert_eq!(rt; net.bring(1, 1), Err(NetFault::OutOfReach));
    assert_eq!(rt; net.bring(0, 3), Err(NetFault::NoSuchPort));
    assert_eq!(rt; net.clear(3, 50), Err(NetFault::NoSuchPort));
    Ok(())
}

// The line to port 1 holds eight, and is emptied by nobody.
#[test]
fn a_full_line(rt: HostRuntime) -> Result<(), Fail> {
    let mut net = net()?;
    for step in 0..8u16 {
        assert_eq!(rt; net.clear(0, 7), Ok(Pair { clock: 7, step }));
    }
    assert_eq!(rt; net.clear(0, 7), Err(NetFault::LineFull));
    // a port that sends to nobody clears all the same
    assert_eq!(rt; net.clear(2, 7), Ok(Pair { clock: 7, step: 0 }));
    Ok(())
}

#[test]
fn what_is_handed_in(rt: HostRuntime) -> Result<(), Fail> {
    let mut net = net()?;
    // everything is wrong; then what is refused before is put right, one number after the other
    let wrong = HandIn {
        port: 3,
        dispatcher: 4,
        reading: 1,
        mask: 0,
        home: 3,
        berth: 16,
        action: 0,
        vessel: 0,
    };
    let right = HandIn {
        port: 0,
        dispatcher: 3,
        reading: 1,
        mask: 7,
        home: 2,
        berth: 15,
        action: 2,
        vessel: 1,
    };
    let cases = [
        (wrong, Err(NetFault::NoSuchPort)),
        (HandIn { port: 0, ..wrong }, Err(NetFault::NoSuchDispatcher)),
        (
            HandIn {
                mask: 0,
                home: 3,
                action: 1,
                ..right
            },
            Err(NetFault::WrongContent),
        ),
        (
            HandIn {
                mask: 0,
                berth: 16,
                action: 1,
                ..right
            },
            Err(NetFault::WrongContent),
        ),
        (
            HandIn {
                mask: 0,
                action: 0,
                ..right
            },
            Err(NetFault::WrongContent),
        ),
        (
            HandIn {
                mask: 0,
                action: 3,
                ..right
            },
            Err(NetFault::WrongContent),
        ),
        (
            HandIn {
                mask: 0,
                vessel: 0,
                ..right
            },
            Err(NetFault::WrongContent),
        ),
        (
            HandIn { mask: 0, ..right },
            Err(NetFault::WrongDestinations),
        ),
        (
            HandIn { mask: 15, ..right },
            Err(NetFault::WrongDestinations),
        ),
        (
            HandIn {
                port: 1,
                mask: 4,
                ..right
            },
            Err(NetFault::WrongDestinations),
        ),
        (right, Ok(1)),
        (
            HandIn {
                port: 2,
                dispatcher: 0,
                mask: 4,
                home: 0,
                berth: 0,
                action: 1,
                vessel: 65535,
                ..right
            },
            Ok(1),
        ),
        (HandIn { mask: 1, ..right }, Ok(2)),
    ];
    for (said, answer) in cases {
        assert_eq!(rt; net.hand_in(said), answer);
    }
    Ok(())
}

#[test]
fn what_is_decided(rt: HostRuntime) -> Result<(), Fail> {
    let mut net = net()?;
    let mut working = [Decided::default(); 17];
    let first = HandIn {
        port: 0,
        dispatcher: 1,
        reading: 50,
        mask: 7,
        home: 0,
        berth: 0,
        action: 1,
        vessel: 5,
    };
    let second = HandIn {
        reading: 40,
        mask: 6,
        berth: 1,
        vessel: 6,
        ..first
    };
    assert_eq!(rt; net.hand_in(first), Ok(1));
    assert_eq!(rt; net.hand_in(second), Ok(2));
    assert_eq!(rt;
        net.decide(3, 9, [9, 9, 9, 9], &mut []),
        Err(NetFault::NoSuchPort)
    );
    assert_eq!(rt;
        net.decide(0, 9, [9, 9, 9, 9], &mut working[0..15]),
        Err(NetFault::WorkingListShort)
    );
    assert_eq!(rt;
        net.decide(0, 9, [9, 9, 9, 9], &mut working),
        Err(NetFault::WrongNumber)
    );
    assert_eq!(rt;
        net.decide(0, 0, [0, 3, 0, 0], &mut working),
        Err(NetFault::WrongCut)
    );
    assert_eq!(rt; working[0].notice.vessel, 0);
    // two copies of the first, none to its own port, and two of the second; both clocks are 50
    assert_eq!(rt; net.decide(0, 0, [0, 2, 0, 0], &mut working), Ok((2, 4)));
    assert_eq!(rt; working[0].notice.vessel, 5);
    assert_eq!(rt; working[0].stamp.pair, Pair { clock: 50, step: 0 });
    assert_eq!(rt; working[1].stamp.pair, Pair { clock: 50, step: 1 });
    assert_eq!(rt; working[2].notice.vessel, 0);
    assert_eq!(rt; net.decide(0, 1, [0, 2, 0, 0], &mut working), Ok((0, 0)));
    assert_eq!(rt;
        net.decide(0, 2, [0, 1, 0, 0], &mut working),
        Err(NetFault::WrongCut)
    );
    Ok(())
}
