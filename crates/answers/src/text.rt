// A text that is put together piece by piece, before it is known whether the memory has room for it. It is no `Display`, since
// what `write!` promises tells nothing of a failure, and a line that fails must leave the memory as it was.
use arrayvec::ArrayVec;

mod adding; // bytes and numbers, added behind it
mod printing; // the text, copied to the front of a memory
mod telling; // answers and refusals of a net, added behind it

// Room for nine numbers of at most twenty digits, and eleven bytes between and behind them.
const ROOM: usize = 191;

#[derive(Drop)]
pub struct Text {
    bytes: ArrayVec<u8, ROOM>,
}
