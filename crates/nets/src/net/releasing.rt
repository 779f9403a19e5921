// Releasing a notice.
ghost use Rattle.model.specs.Calls.{release};
ghost use Rattle.model.specs.Histories.{released};
ghost use Rattle.nets.specs.Promises.{Promised};
ghost use Rattle.std.specs.Prelude.{◌≡◌, OnErr};

use crate::net::Net;
use boards::board::Board;
use boards::outcome::Outcome;
use boards::spot::Spot;
use records::fault::NetFault;
use records::notice::Decided;
use wires::wire::Wire;

impl<W: Wire, B: Board> Net<W, B> {
    // The lowest waiting notice of the port goes into its book, if nobody holds it; the answer is the notice, and what came
    // of it on the port's board.
    pub fn release(&mut self, port: u8) -> Result<(Decided, Outcome), NetFault>
        ensures kept { Promised W.Wire B.Board self.old self.new result (λ a. released port a.0 a.1) (release port) }
        ensures same { OnErr result (self.new ≡ self.old) }
    {
        if self.lacks(port) {
            return Err(NetFault::NoSuchPort);
        }
        let at = port as usize;
        let Some(lowest) = self.ports[at].lowest() else {
            return Err(NetFault::NothingWaits);
        };
        let reach = self.reach;
        let holders = self.ports[at].holders(&reach, lowest.stamp.pair);
        if holders.bits > 0 {
            return Err(NetFault::Held(holders));
        }
        self.ports[at].release();
        let notice = lowest.notice;
        let at = Spot {
            watching: port,
            home: notice.home,
            berth: notice.berth,
        };
        let outcome = self.board.apply(at, notice.action, notice.vessel);
        Ok((lowest, outcome))
    }
}
