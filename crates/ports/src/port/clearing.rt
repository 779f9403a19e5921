// The pair of a clearance, and the floor that it leaves.
ghost use Rattle.model.specs.Steps.{after_clear};
ghost use Rattle.ports.specs.Ports.{port_view, Became, Clears};

use crate::port::Port;
use batches::batch::stamping::next_pair;
use records::fault::NetFault;
use records::stamp::Pair;

impl Port {
    // The pair that the port would stamp at this reading.
    pub fn clearance(&self, reading: u32) -> Result<Pair, NetFault>
        ensures { Clears (port_view self.now) reading result }
    {
        next_pair(self.floor, reading).ok_or(NetFault::StepUsedUp)
    }

    // The pair is stamped as a clearance: it is the floor from then on.
    pub fn clear(&mut self, pair: Pair)
        ensures { Became self.old self.new (after_clear pair (port_view self.old)) }
    {
        self.floor = Some(pair);
    }
}
