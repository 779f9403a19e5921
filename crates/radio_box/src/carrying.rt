// An event carried over a wire.
ghost use Rattle.radio_box.specs.Carryings.{Carries};

use crate::outcome::Carried;
use crate::sample::sample_of;
use events::event::Event;
use records::fault::NetFault;
use records::reach::Reach;
use wires::ends::Ends;
use wires::sending::send;
use wires::wire::Wire;

// Puts, brings or takes what the event says, or refuses where one of its lines is full or nothing has arrived; none where
// the event is not for a box.
pub fn carry<W: Wire>(
    wire: &mut W,
    table: &Reach,
    event: Event,
) -> Option<Result<Carried, NetFault>>
    ensures { Carries W.line W.depth wire.old wire.new table.now.masks event result }
{
    Some(match event {
        Event::Bring { from, to } => {
            wire.bring(Ends { from, to });
            Ok(Carried::Brought)
        }
        Event::Fetch { port, source } => wire
            .take(Ends {
                from: source,
                to: port,
            })
            .map(Carried::Took)
            .ok_or(NetFault::NothingArrived),
        _ => {
            let sample = sample_of(table, event)?;
            send(wire, sample.from, sample.to, sample.record).map(|()| Carried::Sent(sample.to))
        }
    })
}
