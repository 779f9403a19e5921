// Bringing on a line.
ghost use Rattle.model.specs.Calls.{bring};
ghost use Rattle.model.specs.Histories.{brought};
ghost use Rattle.nets.specs.Promises.{Promised};
ghost use Rattle.std.specs.Prelude.{◌≡◌, OnErr};

use crate::net::Net;
use boards::board::Board;
use records::fault::NetFault;
use wires::ends::Ends;
use wires::wire::Wire;

impl<W: Wire, B: Board> Net<W, B> {
    // Brings on the line from one port to another.
    pub fn bring(&mut self, from: u8, to: u8) -> Result<(), NetFault>
        ensures kept { Promised W.Wire B.Board self.old self.new result (λ _. brought from to) (bring from to) }
        ensures same { OnErr result (self.new ≡ self.old) }
    {
        if self.lacks(from) | self.lacks(to) {
            return Err(NetFault::NoSuchPort);
        }
        if !self.reach.sends(from, to) {
            return Err(NetFault::OutOfReach);
        }
        self.wire.bring(Ends { from, to });
        Ok(())
    }
}
