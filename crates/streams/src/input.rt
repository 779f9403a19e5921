// What a program reads of a stream.
ghost use Rattle.std.specs.Prelude.{◌≡◌, IfOk, IfSome, take};

use events::reader::LONGEST;
use std::alloc::Global;
use std::io;
use std::io::Read;

// All of the input, but no more than one byte beyond the longest stream: that is enough to know that it is too long.
pub fn read_input<R: Read + Drop>(heap: Global, input: R) -> io::Result<Vec<u8>>
    ensures { IfOk result (λ stream. IfSome (R.remaining input) (λ bytes. stream.items ≡ take 32769 bytes)) }
{
    let mut stream = Vec::new(heap);
    input.take(LONGEST as u64 + 1).read_to_end(&mut stream)?;
    Ok(stream)
}
