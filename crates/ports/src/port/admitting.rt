// A fetched record.
ghost use Rattle.model.specs.Steps.{pair_of};
ghost use Rattle.ports.specs.Ports.{port_view, misfits, Admits};
ghost use Rattle.std.specs.Prelude.{◌≡◌, not};

use crate::port::Port;
use records::fault::NetFault;
use records::notice::Record;
use records::stamp::Pair;

fn pair_of(record: Record) -> Pair
    ensures { result ≡ pair_of «record» }
{
    match record {
        Record::Notice(notice) => notice.stamp.pair,
        Record::Empty(stamp) => stamp.pair,
    }
}

impl Port {
    // Whether the port can take this record from the source.
    pub fn takes(&self, source: u8, record: Record) -> bool
        ensures { result ≡ not (misfits self.now.own source «record» (port_view self.now).waiting) }
    {
        match record {
            Record::Notice(d) => {
                d.stamp.port == source
                    && d.notice.to.names(self.own)
                    && self.waiting.count_from(source) < 8
            }
            Record::Empty(_) => true,
        }
    }

    // The clearance of the source becomes the record's pair, and a notice joins the waiting list. It is refused where eight
    // of that source wait. It would be refused as well where it is of another source or not addressed to this port, which on
    // a net that was opened, and then only called, no line carries.
    pub fn admit(&mut self, source: u8, record: Record) -> Result<(), NetFault>
        ensures { Admits self.old self.new source «record» result }
    {
        if source > 7 {
            return Err(NetFault::NoSuchPort);
        }
        if !self.takes(source, record) {
            return Err(NetFault::SourceWaitingFull);
        }
        self.clearances[source as usize] = Some(pair_of(record));
        match record {
            Record::Notice(notice) => self.waiting.add(notice),
            Record::Empty(_) => Ok(()),
        }
    }
}
