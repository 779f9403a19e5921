// What a decide and a clear put on the lines.
ghost use Rattle.model.specs.Batches.{goes_to, copies_on};
ghost use Rattle.model.specs.Refusals.{room};
ghost use Rattle.records.specs.declared.notice.Record.TheVariants.{Empty};
ghost use Rattle.sends.specs.Sendings.{AllOrNone};
ghost use Rattle.wires.specs.Growths.{Grown, to_each};
ghost use Rattle.wires.specs.Lines.{is_line};
ghost use Rattle.std.specs.Prelude.{◌≡◌, true, ◌&&◌, [], ◌∷◌};

use crate::room::has_room;
use records::fault::NetFault;
use records::mask::Mask;
use records::notice::{Decided, Record};
use records::stamp::Stamp;
use wires::ends::Ends;
use wires::wire::Wire;

// Puts the copies of a batch on the lines from the port that decides it, notice by notice, or, where one of these lines
// has too few free places, none.
pub fn send_batch<W: Wire>(wire: &mut W, port: u8, notices: &[Decided]) -> Result<(), NetFault>
    ensures { AllOrNone W.line W.depth wire.old wire.new port (copies_on port notices.now) result }
{
    if !has_room(wire, port, notices) {
        return Err(NetFault::LineFull);
    }
    put_batch(wire, port, notices);
    Ok(())
}

// Puts a clearance, an empty notice of this stamp, on the line from its port to each port of the mask, or on none.
pub fn send_clearance<W: Wire>(wire: &mut W, to: Mask, stamp: Stamp) -> Result<(), NetFault>
    ensures { AllOrNone W.line W.depth wire.old wire.new stamp.port (to_each stamp.port to.bits (Empty stamp)) result }
{
    wires::send(wire, stamp.port, to, Record::Empty(stamp))
}

// Whether the notice is to be copied to the other end: it is addressed there, and there is a line.
fn is_copied(notice: Decided, ends: Ends) -> bool
    ensures { result ≡ is_line ends.from ends.to && goes_to ends.to notice }
{
    ends.is_line() && notice.notice.to.names(ends.to)
}

// Puts a copy of the notice on the line to each of its destinations but the port.
fn put_copies<W: Wire>(wire: &mut W, port: u8, notice: Decided)
    requires { room W.depth (W.line wire.old) port (copies_on port (notice ∷ [])) ≡ true }
    ensures { Grown (W.line wire.old) (W.line wire.new) (copies_on port (notice ∷ [])) }
{
    // a `for`, since each turn changes the wire
    for to in 0..8u8 {
        let ends = Ends { from: port, to };
        if is_copied(notice, ends) {
            wire.put(ends, Record::Notice(notice)).unwrap();
        }
    }
}

// Puts the copies of one notice after another.
fn put_batch<W: Wire>(wire: &mut W, port: u8, notices: &[Decided])
    requires { room W.depth (W.line wire.old) port (copies_on port notices.now) ≡ true }
    ensures { Grown (W.line wire.old) (W.line wire.new) (copies_on port notices.now) }
{
    for notice in notices {
        put_copies(wire, port, *notice);
    }
}
