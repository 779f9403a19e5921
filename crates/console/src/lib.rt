// From standard input to standard output: a stream is read, run on a net over any wire and board, and its lines printed.
#![tactic(auto)]

use boards::board::Board;
use pages::page::{refusal_page, run_page};
use runs::streaming::run_stream;
use std::alloc::AllocError;
use std::io;
use std::io::Write;
use streams::input::read_input;
use streams::part::StreamFault;
use wires::wire::Wire;

// Runs the stream on standard input and prints its page. A failure to read or to write, and want of memory, are errors;
// refusals are printed.
pub fn print_run<W: Wire + Drop, B: Board + Drop>(
    rt: &HostRuntime,
    wire: W,
    board: B,
) -> io::Result<()> {
    let stream = read_input(rt.alloc(), rt.stdin())?;
    let (page, end) = match run_stream(rt.alloc(), stream.as_slice(), wire, board) {
        Ok(run) => (
            run_page(rt.alloc(), run.answers.as_slice(), run.end)?,
            run.end,
        ),
        Err(unopened) => (refusal_page(rt.alloc(), unopened.refusal)?, Ok(())),
    };
    rt.stdout().write_all(page.as_slice())?;
    match end {
        Err(StreamFault::NoMemory { .. }) => Err(io::Error::from(AllocError)),
        _ => Ok(()),
    }
}
