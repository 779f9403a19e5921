// Reads an event stream from standard input and prints a line for each field: its place, its letter, and 0; or X and
// the number of the refusal that ends the run.
#![tactic(auto)]

ghost use Rattle.std.specs.Prelude.{◌≡◌, ◌<◌, IfOk, OnSome};

use events::event::Field;
use events::reader::Reader;
use records::reach::Reach;
use std::io;
use streams::input::read_input;
use streams::part::Part;

// The letter of the next field; none at the end of the stream.
fn next_letter(reader: &mut Reader) -> Result<Option<char>, Part>
    ensures stream { reader.new.stream.now ≡ reader.old.stream.now }
    ensures onward { IfOk result (λ o. OnSome o (reader.old.place < reader.new.place)) }
{
    match reader.next()? {
        Some(Field::Event(event)) => Ok(Some(event.letter())),
        Some(Field::Table(masks)) => {
            Reach::new(masks)?;
            Ok(Some('T'))
        }
        None => Ok(None),
    }
}

// Prints the lines of the fields that are left.
fn print_fields(rt: &HostRuntime, mut reader: Reader) -> io::Result<()> {
    'fields: loop {
        let place = reader.place();
        match next_letter(&mut reader) {
            Ok(Some(letter)) => println!(rt; "{place} {letter} 0")?,
            Ok(None) => return Ok(()),
            Err(part) => return println!(rt; "{place} X {}", part.number()),
        }
    }
}

fn main(rt: HostRuntime) -> io::Result<()> {
    let stream = read_input(rt.alloc(), rt.stdin())?;
    print_fields(&rt, Reader::new(stream.as_slice()))
}
