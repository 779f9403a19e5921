// What a line is held to.
use answers::line::Line;
use records::fault::OutputFault;
use std::process::Abort;
use std::test::Fail;

// Longer than every line.
const LONG: usize = 80;

// What stands in the memory before.
const OLD: u8 = 35;

// The first bytes are the text, and all others are as they were.
fn check_memory(rt: &impl Abort, out: &[u8], text: &[u8]) {
    for (i, byte) in out.iter().enumerate() {
        if i < text.len() {
            assert_eq!(rt; *byte, text[i]);
        } else {
            assert_eq!(rt; *byte, OLD);
        }
    }
}

// Only the first bytes of the memory are handed over; all of it is looked at.
fn check_in(
    rt: &impl Abort,
    out: &mut [u8],
    room: usize,
    line: Line,
    answer: Result<usize, OutputFault>,
    text: &[u8],
) -> Result<(), Fail> {
    if room > out.len() {
        return Err(Fail::new("no line is so long"));
    }
    assert_eq!(rt; line.write(&mut out[0..room]), answer);
    check_memory(rt, out, text);
    Ok(())
}

// The line is exactly this text: in a memory that is longer, in one that is just long enough, and not in one that is a byte
// shorter, or empty.
pub fn check_line(rt: &impl Abort, line: Line, text: &[u8]) -> Result<(), Fail> {
    let len = text.len();
    if len == 0 {
        return Err(Fail::new("no line is empty"));
    }
    check_in(rt, &mut [OLD; LONG], LONG, line, Ok(len), text)?;
    check_in(rt, &mut [OLD; LONG], len, line, Ok(len), text)?;
    let short = Err(OutputFault::MemoryTooShort);
    check_in(rt, &mut [OLD; LONG], len - 1, line, short, &[])?;
    check_in(rt, &mut [OLD; LONG], 0, line, short, &[])
}
