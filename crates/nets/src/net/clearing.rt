// Clearing.
ghost use Rattle.model.specs.Calls.{clear};
ghost use Rattle.model.specs.Histories.{cleared};
ghost use Rattle.nets.specs.Promises.{Promised};
ghost use Rattle.nets.specs.Views.{SameNet};
ghost use Rattle.std.specs.Prelude.{OnErr};

use crate::net::Net;
use boards::board::Board;
use records::fault::NetFault;
use records::stamp::{Pair, Stamp};
use sends::sending::send_clearance;
use wires::wire::Wire;

impl<W: Wire, B: Board> Net<W, B> {
    // The port stamps an empty notice, puts it on the line to every port that it can send to, and answers the pair.
    pub fn clear(&mut self, port: u8, reading: u32) -> Result<Pair, NetFault>
        ensures kept { Promised W.Wire B.Board self.old self.new result (cleared port reading) (clear port reading) }
        ensures same { OnErr result (SameNet self.old self.new) }
    {
        if self.lacks(port) {
            return Err(NetFault::NoSuchPort);
        }
        let at = port as usize;
        let pair = self.ports[at].clearance(reading)?;
        let mask = self.reach.mask(port);
        send_clearance(&mut self.wire, mask, Stamp { pair, port })?;
        self.ports[at].clear(pair);
        Ok(pair)
    }
}
