// Whether the lines have room for the copies of a batch.
ghost use Rattle.std.specs.Prelude.{◌≡◌, ◌-◌, length, nat_le};
ghost use Rattle.model.specs.Batches.{copies_on};
ghost use Rattle.model.specs.Refusals.{room};
ghost use Rattle.wires.specs.Lines.{depth_of};

use batches::counting::count_for;
use records::notice::Decided;
use wires::ends::Ends;
use wires::wire::Wire;

// How many copies the line is to get, of what the port at its beginning decides: none where there is no line.
fn copies_to(notices: &[Decided], ends: Ends) -> usize
    ensures { result ≡ length (copies_on ends.from notices.now ends.from ends.to) }
{
    if ends.is_line() {
        count_for(notices, ends.to)
    } else {
        0
    }
}

// Whether the line has a free place for each copy that it is to get.
fn fits<W: Wire>(wire: &W, ends: Ends, notices: &[Decided]) -> bool
    ensures { result ≡ nat_le (length (copies_on ends.from notices.now ends.from ends.to)) (depth_of W.depth ends.from ends.to - length (W.line wire.now ends.from ends.to).held) }
{
    copies_to(notices, ends) <= wire.free(ends)
}

// Whether each line from the port has a free place for each copy that it is to get.
pub fn has_room<W: Wire>(wire: &W, port: u8, notices: &[Decided]) -> bool
    ensures { result ≡ room W.depth (W.line wire.now) port (copies_on port notices.now) }
{
    (0..8u8).all(|to| fits(wire, Ends { from: port, to }, notices))
}
