// Hand in, decide and clear, on both sides of every bound.
use crate::trials::{hand, stamp};
use ports::port::Port;
use records::fault::NetFault;
use records::notice::Decided;
use records::stamp::{Pair, Stamp};
use std::test::Fail;

// The number of notices that a decide takes, or its refusal.
fn taken(port: &mut Port, number: u16, cuts: [u16; 4]) -> Result<usize, NetFault> {
    let batch = port.decide(number, &cuts)?;
    Ok(batch.list().len())
}

fn stamp_at(notices: &[Decided], at: usize) -> Option<Stamp> {
    if at < notices.len() {
        Some(notices[at].stamp)
    } else {
        None
    }
}

#[test]
fn sixteen_are_undecided_and_four_hand_in(rt: HostRuntime) {
    let mut port = Port::new(2);
    for count in 1..5u16 {
        for dispatcher in 0..4u8 {
            assert_eq!(rt; hand(&mut port, dispatcher, 100, 1), Ok(count));
        }
    }
    assert_eq!(rt; hand(&mut port, 3, 100, 1), Err(NetFault::UndecidedFull));
    assert_eq!(rt; hand(&mut port, 4, 100, 1), Err(NetFault::NoSuchDispatcher));
}

// Readings 50, then 40: both clocks are 50, and a later step of the same second tells them apart.
#[test]
fn a_clock_never_falls(rt: HostRuntime) -> Result<(), Fail> {
    let mut port = Port::new(2);
    for (dispatcher, reading, count) in [(3, 50, 1), (3, 40, 2), (1, 45, 1)] {
        assert_eq!(rt; hand(&mut port, dispatcher, reading, 1), Ok(count));
    }
    let Ok(batch) = port.plan(0, &[0, 1, 0, 2]) else {
        assert_eq!(rt; 3, 0);
        return Ok(());
    };
    let stamps = [
        Some(stamp(45, 0, 2)),
        Some(stamp(50, 0, 2)),
        Some(stamp(50, 1, 2)),
        None,
    ];
    for (at, expected) in stamps.iter().enumerate() {
        assert_eq!(rt; stamp_at(batch.list(), at), *expected);
    }
    Ok(())
}

#[test]
fn numbers_and_cuts_are_looked_at(rt: HostRuntime) {
    let mut port = Port::new(0);
    for count in 1..3u16 {
        assert_eq!(rt; hand(&mut port, 1, 100, 2), Ok(count));
    }
    let cases = [
        (1, [0, 3, 0, 0], Err(NetFault::WrongNumber)),
        (0, [0, 3, 0, 0], Err(NetFault::WrongCut)),
        (0, [1, 2, 0, 0], Err(NetFault::WrongCut)),
        (0, [0, 0, 0, 0], Ok(0)),
        (0, [0, 1, 0, 0], Err(NetFault::WrongNumber)),
        (1, [0, 1, 0, 0], Ok(1)),
        (2, [0, 0, 0, 0], Err(NetFault::WrongCut)),
        (2, [0, 2, 0, 0], Ok(1)),
        (3, [0, 2, 0, 0], Ok(0)),
        (3, [0, 2, 0, 0], Err(NetFault::WrongNumber)),
    ];
    for (number, cuts, answer) in cases {
        assert_eq!(rt; taken(&mut port, number, cuts), answer);
    }
}

// Eight of its own wait; a ninth is refused, and one for another port is not.
#[test]
fn eight_of_its_own_wait(rt: HostRuntime) {
    let mut port = Port::new(1);
    for count in 1..10u16 {
        assert_eq!(rt; hand(&mut port, 0, 100, 2), Ok(count));
    }
    assert_eq!(rt; hand(&mut port, 1, 100, 1), Ok(1));
    let cases = [
        (0, [9, 0, 0, 0], Err(NetFault::OwnWaitingFull)),
        (0, [8, 0, 0, 0], Ok(8)),
        (1, [9, 0, 0, 0], Err(NetFault::OwnWaitingFull)),
        (1, [8, 1, 0, 0], Ok(1)),
    ];
    for (number, cuts, answer) in cases {
        assert_eq!(rt; taken(&mut port, number, cuts), answer);
    }
}

// The last batch number and the last count are 65,535.
#[test]
fn numbers_and_counts_end(rt: HostRuntime) {
    let mut port = Port::new(0);
    // each count is handed in and decided, so the loop goes over the counts themselves
    for count in 1..65535u16 {
        assert_eq!(rt; hand(&mut port, 0, count as u32, 2), Ok(count));
        assert_eq!(rt; taken(&mut port, count - 1, [count, 0, 0, 0]), Ok(1));
    }
    assert_eq!(rt; hand(&mut port, 0, 65535, 2), Ok(65535));
    assert_eq!(rt; hand(&mut port, 0, 65535, 2), Err(NetFault::CountUsedUp));
    let cases = [
        (65534, Ok(1)),
        (65535, Ok(0)),
        (65535, Err(NetFault::WrongNumber)),
        (0, Err(NetFault::WrongNumber)),
    ];
    for (number, answer) in cases {
        assert_eq!(rt; taken(&mut port, number, [65535, 0, 0, 0]), answer);
    }
}

// Clock 100 has steps 0 to 65,535; then only a later clock is stamped.
#[test]
fn steps_end(rt: HostRuntime) {
    let mut port = Port::new(0);
    for step in 0..65535u16 {
        let pair = Pair { clock: 100, step };
        assert_eq!(rt; port.clearance(100), Ok(pair));
        port.clear(pair);
    }
    let last = Pair {
        clock: 100,
        step: 65535,
    };
    assert_eq!(rt; port.clearance(90), Ok(last));
    port.clear(last);
    assert_eq!(rt; port.clearance(100), Err(NetFault::StepUsedUp));
    assert_eq!(rt;
        port.clearance(101),
        Ok(Pair {
            clock: 101,
            step: 0,
        })
    );
}
