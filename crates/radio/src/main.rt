// A port's radio box. It reads an event stream from standard input, keeps a bag wire, and prints a line for each event
// that it carries or takes: the place of the event's field, its letter, and
// - of a hand-in or a clear that is sent, 0 and the mask of the ports on whose lines the sample was put;
// - of one that is not, since a line is full or there is none, 15;
// - of a bring, 0;
// - of a fetch, 0 and the stamp of the record that arrived, as clock.step.port, and for a notice its home, berth and
//   vessel, as home/berth vessel; or 16 where nothing has arrived.
// A refusal by reader or table prints the place, X and its number, and ends it. Other events print nothing.
#![tactic(auto)]

use bag_wire::BagWire;
use events::event::Event;
use radio_box::carrying::carry;
use radio_box::outcome::Carried;
use records::notice::Record;
use records::reach::Reach;
use std::io;
use streams::behind::{EventReader, open_stream};
use streams::input::read_input;
use wires::wire::Wire;

// Prints what a fetch at the place took.
fn print_record(rt: &HostRuntime, place: usize, record: Record) -> io::Result<()> {
    match record {
        Record::Empty(stamp) => println!(rt; "{place} F 0 {stamp}"),
        Record::Notice(decided) => {
            let (stamp, notice) = (decided.stamp, decided.notice);
            println!(rt;
                "{place} F 0 {stamp} {}/{} {}",
                notice.home, notice.berth, notice.vessel
            )
        }
    }
}

// Carries the event at the place and prints what came of it, if it is for a box. No two of what it is given go on together.
fn carry_event(
    rt: &HostRuntime,
    wire: &mut BagWire,
    table: &Reach,
    place: usize,
    event: Event,
) -> io::Result<()> {
    let letter = event.letter();
    match carry(wire, table, event) {
        Some(Ok(Carried::Sent(to))) => println!(rt; "{place} {letter} 0 {}", to.bits),
        Some(Ok(Carried::Brought)) => println!(rt; "{place} {letter} 0"),
        Some(Ok(Carried::Took(record))) => print_record(rt, place, record),
        Some(Err(fault)) => println!(rt; "{place} {letter} {}", fault.number()),
        None => Ok(()),
    }
}

// Carries the events that are left, up to the end of the stream or the refusal.
fn carry_events(rt: &HostRuntime, table: &Reach, mut reader: EventReader) -> io::Result<()> {
    let mut wire = BagWire::new();
    'fields: loop {
        let place = reader.place();
        match reader.next() {
            Ok(Some(event)) => carry_event(rt, &mut wire, table, place, event)?,
            Ok(None) => return Ok(()),
            Err(refusal) => return println!(rt; "{place} X {}", refusal.part.number()),
        }
    }
}

fn main(rt: HostRuntime) -> io::Result<()> {
    let stream = read_input(rt.alloc(), rt.stdin())?;
    match open_stream(stream.as_slice()) {
        Ok(opened) => carry_events(&rt, &opened.table(), opened.events(stream.as_slice())),
        Err(part) => println!(rt; "0 X {}", part.number()),
    }
}
