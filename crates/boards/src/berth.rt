// The list that a kind of board keeps of one berth.
ghost use Rattle.std.specs.Prelude.{◌≡◌, Bool, true, []};
ghost use Rattle.boards.specs.Kinds.{named};
ghost use Rattle.boards.specs.Rules.{Vessels, Rule, TakesAlone, Leaves, FirstStays, StaysOnce, ClashIsSame, StaysHeld};
ghost use Rattle.boards.specs.Shown.{Proper};

use crate::outcome::Outcome;
use records::notice::Action;

// The vessels at one berth: first the one alongside, then those who wait. No vessel is 0. Each law of `Board` is a law here,
// and `Berths` takes it over.
pub trait Berth {
    // The vessels, in order.
    ghost vessels: { Self → Vessels };

    // What this kind of board makes of a list.
    ghost rule: { Rule };

    // Which lists this kind of board can hold.
    ghost holds: { Vessels → Bool };

    // A berth with no vessel.
    fn new() -> Self
        ensures { vessels result ≡ [] };

    // The vessels.
    fn as_slice(&self) -> &[u16]
        ensures { result.now ≡ vessels self.now };

    // What a notice makes of the berth. Vessel 0 is none: it changes nothing and is a clash.
    fn turn(&mut self, action: Action, vessel: u16) -> Outcome
        ensures list { vessels self.new ≡ (named rule (vessels self.old) action vessel).list }
        ensures outcome { result ≡ (named rule (vessels self.old) action vessel).outcome };

    ghost alone: { TakesAlone rule };

    ghost leaves: { Leaves holds rule };

    ghost first: { FirstStays holds rule };

    ghost once: { StaysOnce holds rule };

    ghost clash: { ClashIsSame holds rule };

    ghost held: { StaysHeld holds rule };

    ghost none_held: { holds [] ≡ true };

    ghost proper: { (b : Self) → Proper holds (vessels b) };
}
