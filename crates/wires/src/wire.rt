// The trait that every kind of wire meets.
ghost use Rattle.std.specs.Prelude.{◌≡◌, ℕ, ◌-◌, ◌≤◌, length};
ghost use Rattle.wires.specs.Lines.{Line, depth_of, PutAnswers, LookAnswers, TakeAnswers, Brought, Emptied};

use crate::ends::Ends;
use records::fault::NetFault;
use records::notice::Record;

// A wire has a line for each ordered pair of different ports from 0 to 7. Any other pair of numbers has a line of
// depth 0, on which nothing can be put.
pub trait Wire {
    // What the line from one port to another means.
    ghost line: { Self → ℕ → ℕ → Line };

    // How many records each line of this kind of wire can hold.
    ghost depth: { ℕ };

    // Appends the record, or refuses where the line is full. More of the line may have arrived then.
    fn put(&mut self, ends: Ends, record: Record) -> Result<(), NetFault>
        ensures { PutAnswers depth (line self.old) (line self.new) ends.from ends.to «record» result };

    // The oldest record, if it has arrived.
    fn look(&self, ends: Ends) -> Option<Record>
        ensures { LookAnswers (line self.now ends.from ends.to) result };

    // Answers as `look` does, and removes the record that it answers.
    fn take(&mut self, ends: Ends) -> Option<Record>
        ensures { TakeAnswers (line self.old) (line self.new) ends.from ends.to result };

    // Lets more of the line arrive, or not.
    fn bring(&mut self, ends: Ends)
        ensures { Brought (line self.old) (line self.new) ends.from ends.to };

    // How many records more the line can hold.
    fn free(&self, ends: Ends) -> usize
        ensures { result ≡ depth_of depth ends.from ends.to - length (line self.now ends.from ends.to).held };

    // Makes every line empty.
    fn empty(&mut self)
        ensures { Emptied (line self.new) };

    ghost depths: { (4 ≤ depth) × (depth ≤ 16) };

    ghost arrived: { (w : Self) (p q : ℕ) → (line w p q).arrived ≤ length (line w p q).held };

    ghost fits: { (w : Self) (p q : ℕ) → length (line w p q).held ≤ depth_of depth p q };
}
