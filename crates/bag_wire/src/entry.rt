// One record in the journal, with the line that it is on.
ghost use Rattle.bag_wire.specs.Journals.{on, put, shown};
ghost use Rattle.std.specs.Prelude.{◌≡◌};

use records::notice::Record;
use wires::ends::Ends;

#[derive(Clone, Copy, Default)]
pub struct Entry {
    pub ends: Ends,
    pub item: Record,
    pub arrived: bool,
}

impl Entry {
    // A record as it is put: it has not arrived.
    pub fn fresh(ends: Ends, item: Record) -> Entry
        ensures { result ≡ put ends.from ends.to item }
    {
        Entry {
            ends,
            item,
            arrived: false,
        }
    }

    // Whether it is on the line.
    pub fn is_on(&self, ends: Ends) -> bool
        ensures { result ≡ on ends.from ends.to self.now }
    {
        self.ends == ends
    }

    // Its record, if that has arrived.
    pub fn shown(&self) -> Option<Record>
        ensures { result ≡ shown self.now }
    {
        self.arrived.then_some(self.item)
    }
}
