// A wire of one journal for all lines.
ghost use Rattle.std.specs.Prelude.{◌≡◌, ◌≤◌, ℕ, length, refl, take};
ghost use Rattle.bag_wire.specs.Fits.{arrived_fits, held_fits};
ghost use Rattle.bag_wire.specs.Journals.{kept, Sound};
ghost use Rattle.wires.specs.Lines.{depth_of, PutAnswers, Brought, Emptied};
ghost use Rattle.std.proofs.lemmas.Bool.{leb-true};

use crate::entry::Entry;
use crate::journal::{count, first, mark, move_behind};
use records::fault::NetFault;
use records::notice::Record;
use wires::ends::Ends;
use wires::wire::Wire;

// The journal is the first `len` entries, those of all lines in the order of putting. Eight on each of 56 lines fill it. It is an
// array and its length, since the library's vector of fixed capacity writes over each entry that it forgets, and emptying a wire
// shall not take longer the more it holds.
#[derive(Drop)]
pub struct BagWire {
    entries: [Entry; 448],
    len: usize,
    ghost ok: { (length entries ≡ 448) × (len ≤ 448) × Sound (take len entries) },
}

impl BagWire {
    ghost use Rattle.bag_wire.specs.Bags.{bag_lines};

    pub fn new() -> BagWire
        ensures { Emptied (bag_lines result) }
    {
        BagWire {
            entries: [Entry::default(); 448],
            len: 0,
        }
    }
}

// How many records the line can hold: none where there is no line.
fn depth(ends: Ends) -> usize
    ensures { result ≡ depth_of 8 ends.from ends.to }
{
    if ends.is_line() { 8 } else { 0 }
}

// Beyond what every wire promises: a put lets nothing arrive, and a bring lets all of its line arrive.
impl Wire for BagWire {
    ghost use Rattle.bag_wire.specs.Bags.{bag_lines};

    ghost line = { bag_lines };

    ghost depth = { 8 };

    ghost depths = { (leb-true 4 8 refl, leb-true 8 16 refl) };

    ghost arrived = { λ w p q. arrived_fits (kept (take w.len w.entries) p q) };

    ghost fits = { λ w p q. held_fits (kept (take w.len w.entries) p q) _ (w.ok.2 p q) };

    fn put(&mut self, ends: Ends, record: Record) -> Result<(), NetFault>
        ensures does { PutAnswers 8 (bag_lines self.old) (bag_lines self.new) ends.from ends.to «record» result }
        ensures waits { (bag_lines self.new ends.from ends.to).arrived ≡ (bag_lines self.old ends.from ends.to).arrived }
    {
        if self.free(ends) == 0 {
            return Err(NetFault::LineFull);
        }
        self.entries[self.len] = Entry::fresh(ends, record);
        self.len += 1;
        Ok(())
    }

    fn look(&self, ends: Ends) -> Option<Record> {
        let i = first(&self.entries[0..self.len], ends)?;
        self.entries[i].shown()
    }

    fn take(&mut self, ends: Ends) -> Option<Record> {
        let i = first(&self.entries[0..self.len], ends)?;
        let oldest = self.entries[i];
        let record = oldest.shown()?;
        // the entry goes behind the last one, and the journal ends before it
        move_behind(&mut self.entries[i..self.len]);
        self.len -= 1;
        Some(record)
    }

    fn bring(&mut self, ends: Ends)
        ensures does { Brought (bag_lines self.old) (bag_lines self.new) ends.from ends.to }
        ensures all { (bag_lines self.new ends.from ends.to).arrived ≡ length (bag_lines self.new ends.from ends.to).held }
    {
        mark(&mut self.entries[0..self.len], ends);
    }

    fn free(&self, ends: Ends) -> usize {
        depth(ends) - count(&self.entries[0..self.len], ends)
    }

    fn empty(&mut self) {
        self.len = 0;
    }
}
