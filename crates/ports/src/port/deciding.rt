// A batch is planned, and decided.
ghost use Rattle.std.specs.Prelude.{◌≡◌, ◌==◌, ◌+◌, ◌<◌, ◌≤◌, true, length, nat_eq};
ghost use Rattle.model.specs.Batches.{count_from, sent_to};
ghost use Rattle.model.specs.Lists.{placed_all};
ghost use Rattle.model.specs.Refusals.{cuts_fit};
ghost use Rattle.ordered.specs.Orders.{all_pass};
ghost use Rattle.ports.specs.Held.{waiting_of};
ghost use Rattle.ports.specs.Ports.{number_of, port_view, deciding, Plans, Decides};
ghost use Rattle.records.specs.Keys.{decided_before};

use crate::port::Port;
use crate::waiting::Waiting;
use batches::batch::Batch;
use batches::counting::count_for;
use records::fault::NetFault;
use records::notice::Decided;

// Those of the notices that are addressed to the port, which stamped them all, join what waits there.
fn join(waiting: &mut Waiting, notices: &[Decided], port: u8)
    requires port { port < 8 }
    requires stamped { all_pass (λ d. nat_eq d.stamp.port port) notices.now ≡ true }
    requires room { count_from port (waiting_of waiting.old) + length (sent_to port notices.now) ≤ 8 }
    ensures { waiting_of waiting.new ≡ placed_all decided_before (sent_to port notices.now) (waiting_of waiting.old) }
{
    // a `for`, since each turn changes what waits
    for d in notices {
        if d.notice.to.names(port) {
            waiting.add(*d).unwrap();
        }
    }
}

impl Port {
    // Whether the next batch has this number.
    fn is_next(&self, number: u16) -> bool
        ensures { result ≡ (number == number_of self.now.number) }
    {
        self.number == Some(number)
    }

    // Whether each cut is at least the last count decided and at most the last given.
    fn cuts_fit(&self, cuts: &[u16; 4]) -> bool
        ensures { result ≡ cuts_fit (port_view self.now) cuts.now }
    {
        self.dispatchers
            .iter()
            .zip(cuts)
            .all(|(d, cut)| d.allows(*cut))
    }

    // What the port would decide: the batch of this number, up to these cuts.
    pub fn plan(&self, number: u16, cuts: &[u16; 4]) -> Result<Batch, NetFault>
        ensures { Plans self.now (deciding self.now number cuts.now) result }
    {
        if !self.is_next(number) {
            return Err(NetFault::WrongNumber);
        }
        if !self.cuts_fit(cuts) {
            return Err(NetFault::WrongCut);
        }
        let Ok(batch) = Batch::stamp(self.own, self.floor, self.undecided.list(), cuts) else {
            return Err(NetFault::StepUsedUp);
        };
        let own = self.waiting.count_from(self.own) + count_for(batch.list(), self.own);
        if own > 8 {
            return Err(NetFault::OwnWaitingFull);
        }
        Ok(batch)
    }

    // Decides it: the batch leaves the undecided notices, and those of it that are for the port itself join its waiting list.
    pub fn decide(&mut self, number: u16, cuts: &[u16; 4]) -> Result<Batch, NetFault>
        ensures { Decides self.old self.new (deciding self.old number cuts.now) result }
    {
        let batch = self.plan(number, cuts)?;
        let own = self.own;
        join(&mut self.waiting, batch.list(), own);
        self.undecided.keep(cuts);
        let [a, b, c, d] = self.dispatchers;
        self.dispatchers = [
            a.settling(cuts[0]),
            b.settling(cuts[1]),
            c.settling(cuts[2]),
            d.settling(cuts[3]),
        ];
        self.floor = batch.floor();
        self.number = number.checked_add(1);
        Ok(batch)
    }
}
