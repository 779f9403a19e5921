// The line of an event, taken or refused.
use crate::lines::check_line;
use answers::answer::{Answer, Answered};
use answers::line::Line;
use boards::outcome::Outcome;
use events::event::Event;
use records::fault::NetFault;
use records::mask::Mask;
use records::notice::{Action, Decided, HandIn, Notice};
use records::stamp::{Pair, Stamp};
use std::process::Abort;
use std::test::Fail;

fn check_event(
    rt: &impl Abort,
    place: usize,
    event: Event,
    answer: Result<Answer, NetFault>,
    text: &[u8],
) -> Result<(), Fail> {
    let answered = Answered {
        place,
        event,
        answer,
    };
    check_line(rt, Line::Event(answered), text)
}

fn hand_in() -> Event {
    Event::HandIn(HandIn {
        port: 0,
        dispatcher: 0,
        reading: 100,
        mask: 3,
        home: 0,
        berth: 4,
        action: 1,
        vessel: 7,
    })
}

fn decide() -> Event {
    Event::Decide {
        port: 0,
        number: 0,
        cuts: [1, 0, 0, 0],
    }
}

fn batch(notices: usize, copies: usize) -> Result<Answer, NetFault> {
    Ok(Answer::Batch { notices, copies })
}

fn clearance(clock: u32, step: u16) -> Result<Answer, NetFault> {
    Ok(Answer::Clearance(Pair { clock, step }))
}

// A notice of vessel about a berth, handed in by the third dispatcher of port 6 as his ninth.
fn notice(home: u8, berth: u8, vessel: u16) -> Notice {
    Notice {
        source: 6,
        dispatcher: 2,
        count: 9,
        to: Mask { bits: 3 },
        home,
        berth,
        action: Action::Take,
        vessel,
    }
}

fn stamp(clock: u32, step: u16, port: u8) -> Stamp {
    let pair = Pair { clock, step };
    Stamp { pair, port }
}

fn released(notice: Notice, stamp: Stamp, outcome: Outcome) -> Result<Answer, NetFault> {
    let decided = Decided { notice, stamp };
    Ok(Answer::Released {
        notice: decided,
        outcome,
    })
}

#[test]
fn taken(rt: HostRuntime) -> Result<(), Fail> {
    check_event(&rt, 5, hand_in(), Ok(Answer::Count(1)), b"5 H 0 1\n")?;
    check_event(&rt, 20, hand_in(), Ok(Answer::Count(10)), b"20 H 0 10\n")?;
    check_event(
        &rt,
        5,
        hand_in(),
        Ok(Answer::Count(65535)),
        b"5 H 0 65535\n",
    )?;
    check_event(&rt, 35, decide(), batch(1, 2), b"35 D 0 1 2\n")?;
    check_event(&rt, 35, decide(), batch(0, 0), b"35 D 0 0 0\n")?;
    check_event(&rt, 35, decide(), batch(16, 112), b"35 D 0 16 112\n")?;
    let clear = Event::Clear {
        port: 1,
        reading: 99,
    };
    check_event(&rt, 49, clear, clearance(100, 2), b"49 C 0 100.2\n")?;
    check_event(&rt, 49, clear, clearance(0, 0), b"49 C 0 0.0\n")?;
    let bring = Event::Bring { from: 0, to: 1 };
    check_event(&rt, 89, bring, Ok(Answer::Done), b"89 B 0\n")?;
    let fetch = Event::Fetch { port: 1, source: 0 };
    check_event(&rt, 49, fetch, Ok(Answer::Done), b"49 F 0\n")
}

#[test]
fn releases(rt: HostRuntime) -> Result<(), Fail> {
    let release = Event::Release { port: 1 };
    let first = stamp(100, 0, 0);
    check_event(
        &rt,
        54,
        release,
        released(notice(0, 4, 7), first, Outcome::Alongside),
        b"54 R 0 100.0.0 0/4 7 1\n",
    )?;
    check_event(
        &rt,
        81,
        release,
        released(notice(1, 15, 10), stamp(101, 20, 3), Outcome::Gone),
        b"81 R 0 101.20.3 1/15 10 2\n",
    )?;
    check_event(
        &rt,
        85,
        release,
        released(notice(7, 0, 999), first, Outcome::Clash),
        b"85 R 0 100.0.0 7/0 999 3\n",
    )?;
    check_event(
        &rt,
        0,
        release,
        released(notice(0, 0, 0), stamp(0, 0, 0), Outcome::Waits),
        b"0 R 0 0.0.0 0/0 0 4\n",
    )
}

#[test]
fn largest(rt: HostRuntime) -> Result<(), Fail> {
    let most = 18446744073709551615;
    check_event(
        &rt,
        most,
        decide(),
        batch(most, most),
        b"18446744073709551615 D 0 18446744073709551615 18446744073709551615\n",
    )?;
    check_event(
        &rt,
        most,
        Event::Clear {
            port: 255,
            reading: 4294967295,
        },
        clearance(4294967295, 65535),
        b"18446744073709551615 C 0 4294967295.65535\n",
    )?;
    check_event(
        &rt,
        most,
        Event::Release { port: 255 },
        released(
            notice(255, 255, 65535),
            stamp(4294967295, 65535, 255),
            Outcome::Waits,
        ),
        b"18446744073709551615 R 0 4294967295.65535.255 255/255 65535 4\n",
    )
}

#[test]
fn refused(rt: HostRuntime) -> Result<(), Fail> {
    let release = Event::Release { port: 0 };
    let fetch = Event::Fetch { port: 0, source: 1 };
    let held = Err(NetFault::Held(Mask { bits: 2 }));
    check_event(&rt, 72, release, held, b"72 R 19 2\n")?;
    let held = Err(NetFault::Held(Mask { bits: 0 }));
    check_event(&rt, 72, release, held, b"72 R 19 0\n")?;
    let held = Err(NetFault::Held(Mask { bits: 255 }));
    check_event(&rt, 72, release, held, b"72 R 19 255\n")?;
    check_event(&rt, 72, release, Err(NetFault::NothingWaits), b"72 R 18\n")?;
    check_event(&rt, 5, hand_in(), Err(NetFault::NoSuchPort), b"5 H 3\n")?;
    check_event(&rt, 5, hand_in(), Err(NetFault::UndecidedFull), b"5 H 9\n")?;
    check_event(
        &rt,
        9,
        decide(),
        Err(NetFault::WorkingListShort),
        b"9 D 10\n",
    )?;
    check_event(&rt, 9, decide(), Err(NetFault::OwnWaitingFull), b"9 D 14\n")?;
    let clear = Event::Clear {
        port: 0,
        reading: 0,
    };
    check_event(&rt, 10, clear, Err(NetFault::LineFull), b"10 C 15\n")?;
    let bring = Event::Bring { from: 0, to: 0 };
    check_event(&rt, 99, bring, Err(NetFault::OutOfReach), b"99 B 4\n")?;
    check_event(&rt, 99, fetch, Err(NetFault::NothingArrived), b"99 F 16\n")?;
    check_event(
        &rt,
        99,
        fetch,
        Err(NetFault::SourceWaitingFull),
        b"99 F 17\n",
    )
}
