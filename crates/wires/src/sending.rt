// What is sent over any kind of wire.
ghost use Rattle.wires.specs.Growths.{Grown, to_each, Space, NoSpace, SendAnswers};
ghost use Rattle.std.specs.Prelude.{MatchBool};

use crate::ends::Ends;
use crate::wire::Wire;
use records::fault::NetFault;
use records::mask::Mask;
use records::notice::Record;

// Puts the record on the line from the port to each port of the mask, or, where one of these lines is full, on none.
pub fn send<W: Wire>(wire: &mut W, from: u8, to: Mask, record: Record) -> Result<(), NetFault>
    ensures { SendAnswers W.line W.depth wire.old wire.new from to.bits «record» result }
{
    if !has_space(wire, from, to) {
        return Err(NetFault::LineFull);
    }
    put_on_each(wire, from, to, record);
    Ok(())
}

// Whether the line to each port of the mask has a free place.
fn has_space<W: Wire>(wire: &W, from: u8, to: Mask) -> bool
    ensures { MatchBool result (Space W.depth (W.line wire.now) from to.bits) (NoSpace W.depth (W.line wire.now) from to.bits) }
{
    (0..8u8).all(|port| !to.names(port) || wire.free(Ends { from, to: port }) > 0)
}

// Puts the record on the line to each port of the mask.
fn put_on_each<W: Wire>(wire: &mut W, from: u8, to: Mask, record: Record)
    requires { Space W.depth (W.line wire.old) from to.bits }
    ensures { Grown (W.line wire.old) (W.line wire.new) (to_each from to.bits «record») }
{
    // a `for`, since each turn changes the wire
    for end in 0..8u8 {
        if to.names(end) {
            wire.put(Ends { from, to: end }, record).unwrap();
        }
    }
}
