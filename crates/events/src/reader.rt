// Reads a stream field by field.
ghost use Rattle.std.specs.Prelude.{◌≡◌, ℕ, ◌+◌, ◌<◌, ◌≤◌, false, length, IfNone, IfOk, IfSome, OnErr, OnSome};
ghost use Rattle.std.specs.Result.{result_err};
ghost use Rattle.events.specs.Answers.{Answers, Tells};
ghost use Rattle.events.specs.Fields.{at16, at32, size_of, wrong_for, field_fault, read_at};
ghost use Rattle.events.specs.Tags.{number_of};

use crate::event::{Event, Field};
use crate::tag::Tag;
use records::fault::ReaderFault;
use records::notice::HandIn;

// The longest stream that is read, in bytes.
pub const LONGEST: usize = 32768;

fn u16_at(bytes: &[u8], i: usize) -> u16
    requires { i + 2 ≤ length bytes.now }
    ensures { result ≡ at16 bytes.now i }
{
    u16::from_be_bytes([bytes[i], bytes[i + 1]])
}

fn u32_at(bytes: &[u8], i: usize) -> u32
    requires { i + 4 ≤ length bytes.now }
    ensures { result ≡ at32 bytes.now i }
{
    u32::from_be_bytes([bytes[i], bytes[i + 1], bytes[i + 2], bytes[i + 3]])
}

// What a field says whose value is all there.
fn field(tag: Tag, v: &[u8]) -> Field<'_>
    requires { wrong_for (size_of (number_of tag)) (length v.now) ≡ false }
    ensures { Tells (number_of tag) v.now result }
{
    Field::Event(match tag {
        Tag::Table => return Field::Table(v),
        Tag::HandIn => Event::HandIn(HandIn {
            port: v[0],
            dispatcher: v[1],
            reading: u32_at(v, 2),
            mask: v[6],
            home: v[7],
            berth: v[8],
            action: v[9],
            vessel: u16_at(v, 10),
        }),
        Tag::Decide => Event::Decide {
            port: v[0],
            number: u16_at(v, 1),
            cuts: [u16_at(v, 3), u16_at(v, 5), u16_at(v, 7), u16_at(v, 9)],
        },
        Tag::Clear => Event::Clear {
            port: v[0],
            reading: u32_at(v, 1),
        },
        Tag::Bring => Event::Bring {
            from: v[0],
            to: v[1],
        },
        Tag::Fetch => Event::Fetch {
            port: v[0],
            source: v[1],
        },
        Tag::Release => Event::Release { port: v[0] },
    })
}

// The tag of a field with this number, as it came, and this length, where so many bytes follow its head; or why it is refused.
fn tag_of(first: bool, number: u8, len: usize, there: usize) -> Result<Tag, ReaderFault>
    ensures tag { IfOk result (λ tag. number_of tag ≡ number) }
    ensures fault { result_err result ≡ field_fault first number len there }
{
    let tag = Tag::try_from(number)?;
    if first != (tag == Tag::Table) {
        return Err(ReaderFault::MisplacedTag);
    }
    if tag.size().is_some_and(|size| len != size) {
        return Err(ReaderFault::WrongLength);
    }
    if there < len {
        return Err(ReaderFault::MissingBytes);
    }
    Ok(tag)
}

// A stream, and the place of the field that is read next.
#[derive(Drop)]
pub struct Reader<'a> {
    stream: &'a [u8],
    place: usize,
    ghost within: { place ≤ length stream.now },
}

impl<'a> Reader<'a> {
    pub fn new(stream: &'a [u8]) -> Reader<'a>
        ensures place { result.place ≡ 0 }
        ensures stream { result.stream.now ≡ stream.now }
    {
        Reader { stream, place: 0 }
    }

    // A reader that goes on at the place; none where the place is beyond the stream.
    pub fn at(stream: &'a [u8], place: usize) -> Option<Reader<'a>>
        ensures beyond { IfNone result (length stream.now < place) }
        ensures within { OnSome result (place ≤ length stream.now) }
        ensures place { IfSome result (λ r. r.place ≡ place) }
        ensures stream { IfSome result (λ r. r.stream.now ≡ stream.now) }
    {
        if place > stream.len() {
            return None;
        }
        Some(Reader { stream, place })
    }

    // Where the field begins that is read next.
    pub fn place(&self) -> usize
        ensures { result ≡ self.now.place }
    {
        self.place
    }

    // The field at the place, which moves behind it; none at the end of the stream. Where the field is refused, the
    // reader stays at it.
    pub fn next(&mut self) -> Result<Option<Field<'a>>, ReaderFault>
        ensures stream { self.new.stream.now ≡ self.old.stream.now }
        ensures same { OnErr result (self.new ≡ self.old) }
        ensures onward { IfOk result (λ o. OnSome o (self.old.place + 3 ≤ self.new.place)) }
        ensures answers { Answers (read_at self.old.stream.now self.old.place) self.old.place self.new.place result }
    {
        if self.stream.len() > LONGEST {
            return Err(ReaderFault::StreamTooLong);
        }
        let rest = &self.stream[self.place..];
        if rest.is_empty() && self.place > 0 {
            return Ok(None);
        }
        if rest.len() < 3 {
            return Err(ReaderFault::LooseBytes);
        }
        let len = u16_at(rest, 1) as usize;
        let tag = tag_of(self.place == 0, rest[0], len, rest.len() - 3)?;
        let value = &rest[3..3 + len];
        self.place += 3 + len;
        Ok(Some(field(tag, value)))
    }
}
