// What every kind of board shows of the berths, and the laws of its rule.
ghost use Rattle.std.specs.Prelude.{◌≡◌, ℕ, Bool, length, slice_index};
ghost use Rattle.boards.specs.Rules.{Vessels, Rule, TakesAlone, Leaves, FirstStays, StaysOnce, ClashIsSame, StaysHeld};
ghost use Rattle.boards.specs.Shown.{Applied, Emptied, NoneOutside, Proper};

use crate::outcome::Outcome;
use crate::spot::Spot;
use records::notice::Action;

// A board shows, for each watching port and each berth of each home port, a list of vessels: first the one alongside,
// then those who wait. Ports are 0 to 7, berths 0 to 15, and no vessel is 0.
pub trait Board {
    // The list for a watching port, a home port and a berth.
    ghost shown: { Self → ℕ → ℕ → ℕ → Vessels };

    // What this kind of board makes of a list.
    ghost rule: { Rule };

    // Which lists this kind of board can hold.
    ghost holds: { Vessels → Bool };

    // Applies a notice at a watching port. A number out of range changes nothing and is a clash.
    fn apply(&mut self, at: Spot, action: Action, vessel: u16) -> Outcome
        ensures { Applied rule (shown self.old) (shown self.new) at.watching at.home at.berth action vessel result };

    // How many vessels the list has.
    fn len(&self, at: Spot) -> usize
        ensures { result ≡ length (shown self.now at.watching at.home at.berth) };

    // The vessel at a place of the list, counted from 0, and 0 where there is none.
    fn vessel_at(&self, at: Spot, place: usize) -> u16
        ensures { result ≡ slice_index (shown self.now at.watching at.home at.berth) place };

    // Makes every list empty.
    fn empty(&mut self)
        ensures { Emptied (shown self.new) };

    ghost alone: { TakesAlone rule };

    ghost leaves: { Leaves holds rule };

    ghost first: { FirstStays holds rule };

    ghost once: { StaysOnce holds rule };

    ghost clash: { ClashIsSame holds rule };

    ghost held: { StaysHeld holds rule };

    ghost proper: { (b : Self) (p q k : ℕ) → Proper holds (shown b p q k) };

    ghost outside: { (b : Self) → NoneOutside (shown b) };
}
