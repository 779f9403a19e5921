// Adding a notice, and what a batch leaves.
ghost use Rattle.model.specs.Batches.{left};
ghost use Rattle.ordered.specs.Orders.{Rising};
ghost use Rattle.ordered.specs.Sorted.{entries_of};
ghost use Rattle.ports.specs.Held.{undecided_of, Adds};
ghost use Rattle.records.specs.Keys.{handed_before};
ghost use Rattle.std.specs.Prelude.{◌≡◌, ◌≤◌, [], length};

use crate::undecided::Undecided;
use batches::keeping::keep_left;
use ordered::Sorted;
use records::fault::NetFault;
use records::notice::Handed;

// A list of these notices, which are few and rise: each comes behind those put before it.
fn listed(notices: &[Handed]) -> Sorted<Handed, 16>
    requires few { length notices.now ≤ 16 }
    requires rises { Rising handed_before notices.now }
    ensures { entries_of result ≡ notices.now }
{
    let mut list = Sorted::new();
    for n in notices {
        list.insert(*n).unwrap();
    }
    list
}

impl Undecided {
    pub(crate) fn new() -> Undecided
        ensures { undecided_of result ≡ [] }
    {
        Undecided {
            notices: Sorted::new(),
        }
    }

    // The notices, in their order: 16 at most.
    pub(crate) fn list(&self) -> &[Handed]
        ensures all { result.now ≡ undecided_of self.now }
        ensures few { length result.now ≤ 16 }
    {
        self.notices.as_slice()
    }

    // Puts the notice in its place; where 16 are undecided it is refused.
    pub(crate) fn add(&mut self, notice: Handed) -> Result<(), NetFault>
        ensures { Adds self.old self.new notice result }
    {
        let full = |_| NetFault::UndecidedFull;
        self.notices.insert(notice).map_err(full)?;
        Ok(())
    }

    // The batch leaves: only the notices above their dispatchers' cuts stay.
    pub(crate) fn keep(&mut self, cuts: &[u16; 4])
        ensures { undecided_of self.new ≡ left cuts.now (undecided_of self.old) }
    {
        let mut notices = [Handed::default(); 16];
        let len = self.list().len();
        notices[..len].copy_from_slice(self.list());
        let count = keep_left(&mut notices[..len], cuts);
        self.notices = listed(&notices[..count]);
    }
}
