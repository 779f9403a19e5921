// Fetching a record.
ghost use Rattle.model.specs.Calls.{fetch};
ghost use Rattle.model.specs.Histories.{fetched};
ghost use Rattle.nets.specs.Promises.{PromisedAfter};
ghost use Rattle.std.specs.Prelude.{◌≡◌, OnErr};

use crate::net::Net;
use boards::board::Board;
use records::fault::NetFault;
use wires::ends::Ends;
use wires::wire::Wire;

impl<W: Wire, B: Board> Net<W, B> {
    // The port takes the oldest arrived record of the line from the source.
    pub fn fetch(&mut self, port: u8, source: u8) -> Result<(), NetFault>
        ensures kept { PromisedAfter W.Wire B.Board self.old self.new result (λ _. fetched port source) (fetch port source) }
        ensures same { OnErr result (self.new ≡ self.old) }
    {
        if self.lacks(port) | self.lacks(source) {
            return Err(NetFault::NoSuchPort);
        }
        if !self.reach.sends(source, port) {
            return Err(NetFault::OutOfReach);
        }
        let ends = Ends {
            from: source,
            to: port,
        };
        let Some(record) = self.wire.look(ends) else {
            return Err(NetFault::NothingArrived);
        };
        let at = port as usize;
        if !self.ports[at].takes(source, record) {
            return Err(NetFault::SourceWaitingFull);
        }
        self.ports[at].admit(source, record).unwrap();
        self.wire.take(ends).unwrap();
        Ok(())
    }
}
