// Deciding a batch.
ghost use Rattle.std.specs.Prelude.{◌≡◌, ◌≤◌, List, ◌++◌, length, drop, MatchResult, OnErr};
ghost use Rattle.model.specs.Calls.{decide};
ghost use Rattle.model.specs.Histories.{decided, refused};
ghost use Rattle.nets.specs.Deciding.{deciding_call};
ghost use Rattle.nets.specs.Promises.{KeptOn};
ghost use Rattle.records.specs.declared.notice.Decided.{Decided};

use crate::net::Net;
use batches::counting::copies;
use boards::board::Board;
use records::fault::NetFault;
use records::notice::Decided;
use sends::room::has_room;
use sends::sending::send_batch;
use wires::wire::Wire;

// Writes the notices over the front of the working list.
fn copy_into(working: &mut [Decided], notices: &[Decided])
    requires { length notices.now ≤ length working.old }
    ensures { working.new ≡ notices.now ++ drop (length notices.now) working.old }
{
    working[0..notices.len()].copy_from_slice(notices);
}

impl<W: Wire, B: Board> Net<W, B> {
    // The port decides its next batch, the undecided notices up to the cuts, and sends it. The batch stands in front in
    // the working list; the answer is how many notices it has and how many copies of them are on their way.
    // (Four cuts, one for each of a port's dispatchers, are a rule.)
    pub fn decide(
        &mut self,
        port: u8,
        number: u16,
        cuts: [u16; 4],
        working: &mut [Decided],
    ) -> Result<(usize, usize), NetFault>
        ensures kept { MatchResult result (λ a. (ds : List Decided) × KeptOn W.Wire B.Board self.old (decided (deciding_call port number cuts working.old) ds a.0 a.1) self.new × (working.new ≡ ds ++ drop (length ds) working.old)) (λ f. KeptOn W.Wire B.Board self.old (refused (decide (deciding_call port number cuts working.old)) f) self.new) }
        ensures same { OnErr result ((self.new ≡ self.old) × (working.new ≡ working.old)) }
    {
        if self.lacks(port) {
            return Err(NetFault::NoSuchPort);
        }
        if working.len() < 16 {
            return Err(NetFault::WorkingListShort);
        }
        let at = port as usize;
        let batch = self.ports[at].plan(number, &cuts)?;
        let notices = batch.list();
        if !has_room(&self.wire, port, notices) {
            return Err(NetFault::LineFull);
        }
        // nothing is refused from here on: the lines have room, and the port planned it
        send_batch(&mut self.wire, port, notices).unwrap();
        self.ports[at].decide(number, &cuts).unwrap();
        copy_into(working, notices);
        Ok((notices.len(), copies(notices, port)))
    }
}
