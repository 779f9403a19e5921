// A wire of rings, one for each line.
ghost use Rattle.std.specs.Prelude.{◌≡◌, ℕ, refl};
ghost use Rattle.row_wire.specs.Rows.{place_of, AllArrived, Sound};
ghost use Rattle.row_wire.specs.Fits.{line_fits};
ghost use Rattle.wires.specs.Lines.{PutAnswers, TakeAnswers, Brought, Emptied};
ghost use Rattle.std.proofs.lemmas.Bool.{leb-true};
ghost use Rattle.std.proofs.Math.Nat.{le_refl};

use crate::ring::Ring;
use records::fault::NetFault;
use records::notice::Record;
use std::array;
use wires::ends::Ends;
use wires::wire::Wire;

// A ring for each pair of ports from 0 to 7; those of a port and itself stay empty.
#[derive(Drop)]
pub struct RowWire {
    rings: [Ring<Record, 16>; 64],
    ghost sound: { Sound rings },
}

impl RowWire {
    ghost use Rattle.row_wire.specs.RowLines.{row_lines};

    pub fn new() -> RowWire
        ensures { Emptied (row_lines result) }
    {
        RowWire {
            rings: array::from_fn(|_| Ring::new(Record::default())),
        }
    }
}

// Where the ring of a line lies, if there is such a line. One flat array: arrays in arrays would ask for the same test, and
// index twice.
fn place(ends: Ends) -> Option<usize>
    ensures { result ≡ place_of ends.from ends.to }
{
    ends.is_line()
        .then(|| ends.from as usize * 8 + ends.to as usize)
}

// Beyond what every wire promises: all that a row wire holds has arrived, after every call.
impl Wire for RowWire {
    ghost use Rattle.row_wire.specs.RowLines.{row_lines};

    ghost line = { row_lines };

    ghost depth = { 16 };

    ghost depths = { (leb-true 4 16 refl, leb-true 16 16 refl) };

    ghost arrived = { λ w p q. le_refl _ };

    ghost fits = { λ w p q. line_fits w.rings w.sound p q };

    fn put(&mut self, ends: Ends, record: Record) -> Result<(), NetFault>
        ensures does { PutAnswers 16 (row_lines self.old) (row_lines self.new) ends.from ends.to «record» result }
        ensures all { AllArrived (row_lines self.new) }
    {
        let ring = &mut self.rings[place(ends).ok_or(NetFault::LineFull)?];
        if ring.is_full() {
            return Err(NetFault::LineFull);
        }
        ring.push(record);
        Ok(())
    }

    fn look(&self, ends: Ends) -> Option<Record> {
        self.rings[place(ends)?].front()
    }

    fn take(&mut self, ends: Ends) -> Option<Record>
        ensures does { TakeAnswers (row_lines self.old) (row_lines self.new) ends.from ends.to result }
        ensures all { AllArrived (row_lines self.new) }
    {
        self.rings[place(ends)?].pop()
    }

    fn bring(&mut self, ends: Ends)
        ensures does { Brought (row_lines self.old) (row_lines self.new) ends.from ends.to }
        ensures all { AllArrived (row_lines self.new) }
    {}

    fn free(&self, ends: Ends) -> usize {
        // no place is free where there is no line
        let Some(k) = place(ends) else {
            return 0;
        };
        self.rings[k].free()
    }

    fn empty(&mut self)
        ensures does { Emptied (row_lines self.new) }
        ensures all { AllArrived (row_lines self.new) }
    {
        for ring in self.rings.iter_mut() {
            ring.clear();
        }
    }
}
