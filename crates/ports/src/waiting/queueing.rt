// Joining, looking at the lowest, and taking it.
ghost use Rattle.model.specs.Batches.{count_from};
ghost use Rattle.model.specs.Lists.{rest};
ghost use Rattle.ports.specs.Held.{waiting_of, Joins, Lowest};
ghost use Rattle.std.specs.Prelude.{◌≡◌, [], None};

use crate::waiting::Waiting;
use batches::counting::count_from;
use ordered::Sorted;
use records::fault::NetFault;
use records::notice::Decided;

impl Waiting {
    pub(crate) fn new() -> Waiting
        ensures { waiting_of result ≡ [] }
    {
        Waiting {
            notices: Sorted::new(),
        }
    }

    // The notices, in their order.
    pub(crate) fn list(&self) -> &[Decided]
        ensures { result.now ≡ waiting_of self.now }
    {
        self.notices.as_slice()
    }

    // How many of the source wait.
    pub(crate) fn count_from(&self, source: u8) -> usize
        ensures { result ≡ count_from source (waiting_of self.now) }
    {
        count_from(self.list(), source)
    }

    // Puts the notice in its place. Where eight of its port wait, or it is stamped by a port that there is not, it is refused.
    pub(crate) fn add(&mut self, notice: Decided) -> Result<(), NetFault>
        ensures { Joins self.old self.new notice result }
    {
        let source = notice.stamp.port;
        if source > 7 || self.count_from(source) >= 8 {
            return Err(NetFault::SourceWaitingFull);
        }
        // at most seven of its port and eight of each other wait: there is a place
        self.notices.insert(notice).unwrap();
        Ok(())
    }

    // The lowest by stamp, if any waits.
    pub(crate) fn lowest(&self) -> Option<Decided>
        ensures { Lowest (waiting_of self.now) result }
    {
        self.list().first().copied()
    }

    // The lowest leaves.
    pub(crate) fn take_lowest(&mut self) -> Option<Decided>
        ensures value { Lowest (waiting_of self.old) result }
        ensures after { waiting_of self.new ≡ rest (waiting_of self.old) }
        ensures none { result ≡ None → self.new ≡ self.old }
    {
        let lowest = self.lowest()?;
        self.notices.take_first();
        Some(lowest)
    }
}
