// What came of an event at the box.
use records::mask::Mask;
use records::notice::Record;

#[derive(Clone, Copy)]
pub enum Carried {
    // its sample was put on the line to each of these ports
    Sent(Mask),
    // more of its line may have arrived
    Brought,
    // this record had arrived on its line, and was taken
    Took(Record),
}
