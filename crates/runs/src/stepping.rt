// Runs one event against a net.
ghost use Rattle.nets.specs.Views.{view, SameNet};
ghost use Rattle.runs.specs.Asked.{Ran};
ghost use Rattle.std.specs.Prelude.{OnErr};

use answers::answer::Answer;
use boards::board::Board;
use events::event::Event;
use nets::net::Net;
use records::fault::NetFault;
use records::notice::Decided;
use wires::wire::Wire;

// Makes the call that the event is, and answers what the net answers. A refusal leaves the net as it was.
pub fn run_event<W: Wire, B: Board>(net: &mut Net<W, B>, event: Event) -> Result<Answer, NetFault>
    ensures ran { Ran W.depth B.rule (view W.line B.shown net.old) event result (view W.line B.shown net.new) }
    ensures same { OnErr result (SameNet net.old net.new) }
{
    Ok(match event {
        Event::HandIn(said) => Answer::Count(net.hand_in(said)?),
        Event::Decide { port, number, cuts } => {
            let mut working = [Decided::default(); 16];
            let (notices, copies) = net.decide(port, number, cuts, &mut working)?;
            Answer::Batch { notices, copies }
        }
        Event::Clear { port, reading } => Answer::Clearance(net.clear(port, reading)?),
        Event::Bring { from, to } => {
            net.bring(from, to)?;
            Answer::Done
        }
        Event::Fetch { port, source } => {
            net.fetch(port, source)?;
            Answer::Done
        }
        Event::Release { port } => {
            let (notice, outcome) = net.release(port)?;
            Answer::Released { notice, outcome }
        }
    })
}
