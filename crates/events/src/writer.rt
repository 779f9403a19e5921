// Writes a table and events as a stream.
ghost use Rattle.std.specs.Prelude.{◌≡◌, ℕ, ◌+◌, ◌<◌, ◌≤◌, ◌++◌, length, take, drop, MatchOption, MatchResult, OnErr};
ghost use Rattle.events.specs.Fields.{longest};
ghost use Rattle.events.specs.Streams.{Wrote, NotWritten};
ghost use Rattle.events.specs.Tags.{number_of};
ghost use Rattle.records.specs.Tables.{masks_of};
ghost use Rattle.events.specs.Writing.{field_of, event_bytes, table_bytes, stream_of, Fit};

use crate::event::Event;
use crate::reader::LONGEST;
use crate::tag::Tag;
use arrayvec::ArrayVec;
use records::fault::OutputFault;
use records::notice::HandIn;
use records::reach::Reach;

// The longest field that is written, in bytes.
const FIELD: usize = 15;

// A field with this value.
fn field(tag: Tag, value: &[u8]) -> ArrayVec<u8, FIELD>
    requires { length value.now ≤ 12 }
    ensures { result.items ≡ field_of (number_of tag) value.now }
{
    let [high, low] = (value.len() as u16).to_be_bytes();
    let mut field = ArrayVec::new();
    field
        .try_extend_from_slice(&[tag as u8, high, low])
        .unwrap();
    field.try_extend_from_slice(value).unwrap();
    field
}

fn encode_hand_in(hand_in: HandIn) -> ArrayVec<u8, FIELD>
    ensures bytes { result.items ≡ event_bytes (Event.HandIn hand_in) }
    ensures fit { Fit (Event.HandIn hand_in) }
{
    let HandIn {
        port,
        dispatcher,
        reading,
        mask,
        home,
        berth,
        action,
        vessel,
    } = hand_in;
    let [r0, r1, r2, r3] = reading.to_be_bytes();
    let [v0, v1] = vessel.to_be_bytes();
    let value = [
        port, dispatcher, r0, r1, r2, r3, mask, home, berth, action, v0, v1,
    ];
    field(Tag::HandIn, &value)
}

fn encode(event: Event) -> ArrayVec<u8, FIELD>
    ensures bytes { result.items ≡ event_bytes event }
    ensures fit { Fit event }
{
    match event {
        Event::HandIn(hand_in) => encode_hand_in(hand_in),
        Event::Decide { port, number, cuts } => {
            let [n0, n1] = number.to_be_bytes();
            let [a0, a1] = cuts[0].to_be_bytes();
            let [b0, b1] = cuts[1].to_be_bytes();
            let [c0, c1] = cuts[2].to_be_bytes();
            let [d0, d1] = cuts[3].to_be_bytes();
            let value = [port, n0, n1, a0, a1, b0, b1, c0, c1, d0, d1];
            field(Tag::Decide, &value)
        }
        Event::Clear { port, reading } => {
            let [r0, r1, r2, r3] = reading.to_be_bytes();
            field(Tag::Clear, &[port, r0, r1, r2, r3])
        }
        Event::Bring { from, to } => field(Tag::Bring, &[from, to]),
        Event::Fetch { port, source } => field(Tag::Fetch, &[port, source]),
        Event::Release { port } => field(Tag::Release, &[port]),
    }
}

fn encode_table(table: &Reach) -> ArrayVec<u8, FIELD>
    ensures { result.items ≡ table_bytes (masks_of table.now) }
{
    // a `for`, since `extend` with the same masks did not prove
    let mut masks = ArrayVec::<u8, 8>::new();
    for port in 0..table.ports() {
        masks.push(table.mask(port).bits);
    }
    field(Tag::Table, &masks)
}

// Writes the field from `at` on, and tells where it ends.
fn put(field: &[u8], out: &mut [u8], at: usize) -> usize
    requires { at + length field.now ≤ length out.old }
    ensures end { result ≡ at + length field.now }
    ensures after { out.new ≡ take at out.old ++ (field.now ++ drop result out.old) }
{
    let end = at + field.len();
    out[at..end].copy_from_slice(field);
    end
}

// How long the stream of the table and the events is, unless it is too long.
fn stream_len(table: &Reach, events: &[Event]) -> Option<usize>
    ensures { MatchOption result (longest < length (stream_of (masks_of table.now) events.now)) (λ n. (n ≡ length (stream_of (masks_of table.now) events.now)) × (n ≤ longest)) }
{
    // a `for`, since it ends as soon as the stream is too long, which keeps the sum within bounds
    let mut len = encode_table(table).len();
    for event in events {
        len += encode(*event).len();
        if len > LONGEST {
            return None;
        }
    }
    Some(len)
}

// Writes the table and the events to the front of `out`, and tells how many bytes they take. Where they are refused,
// `out` stays as it was.
pub fn write(table: &Reach, events: &[Event], out: &mut [u8]) -> Result<usize, OutputFault>
    ensures wrote { MatchResult result (λ n. Wrote (masks_of table.now) events.now out.old out.new n) (λ f. NotWritten (stream_of (masks_of table.now) events.now) out.old f) }
    ensures same { OnErr result (out.new ≡ out.old) }
{
    let len = stream_len(table, events).ok_or(OutputFault::StreamTooLong)?;
    if out.len() < len {
        return Err(OutputFault::MemoryTooShort);
    }
    let mut at = put(&encode_table(table), out, 0);
    for event in events {
        at = put(&encode(*event), out, at);
    }
    Ok(at)
}
