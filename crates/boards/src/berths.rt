// A board of one list for each berth at each watching port.
ghost use Rattle.std.specs.Prelude.{◌≡◌, [], refl, MatchOption};
ghost use Rattle.boards.specs.Places.{shown_by};
ghost use Rattle.boards.specs.Shown.{Applied, Emptied, Proper};
ghost use Rattle.boards.specs.PlaceLaws.{none_outside, shown_each};

use crate::berth::Berth;
use crate::board::Board;
use crate::outcome::Outcome;
use crate::spot::{LISTS, Spot};
use records::notice::Action;
use std::array;

#[derive(Drop)]
pub struct Berths<K> {
    lists: [K; LISTS],
}

impl<K: Berth> Berths<K> {
    pub fn new() -> Self
        ensures { Emptied (shown_by K.vessels result.lists) }
    {
        Berths {
            lists: array::from_fn(|_| K::new()),
        }
    }

    // The list of a spot, if there is such a list.
    fn list(&self, at: Spot) -> Option<&K>
        ensures { let shown = shown_by K.vessels self.now.lists at.watching at.home at.berth in MatchOption result (shown ≡ []) (λ list. K.vessels list.now ≡ shown) }
    {
        self.lists.get(at.index()?)
    }

    // Its vessels; none where there is no such list.
    fn vessels(&self, at: Spot) -> &[u16]
        ensures { result.now ≡ shown_by K.vessels self.now.lists at.watching at.home at.berth }
    {
        self.list(at).map_or(&[], |list| list.as_slice())
    }
}

impl<K: Berth + Drop> Board for Berths<K> {
    ghost shown = { λ b. shown_by K.vessels b.lists };

    ghost rule = { K.rule };

    ghost holds = { K.holds };

    ghost alone = { K.alone };

    ghost leaves = { K.leaves };

    ghost first = { K.first };

    ghost once = { K.once };

    ghost clash = { K.clash };

    ghost held = { K.held };

    ghost proper = { λ b p q k. shown_each K.vessels (Proper K.holds) (record { held = K.none_held; apart = refl; named = refl }) K.proper b.lists p q k };

    ghost outside = { λ b. none_outside K.vessels b.lists };

    fn apply(&mut self, at: Spot, action: Action, vessel: u16) -> Outcome {
        match at.index() {
            Some(i) if vessel != 0 => self.lists[i].turn(action, vessel),
            _ => Outcome::Clash,
        }
    }

    fn len(&self, at: Spot) -> usize {
        self.vessels(at).len()
    }

    fn vessel_at(&self, at: Spot, place: usize) -> u16 {
        self.vessels(at).get(place).copied().unwrap_or(0)
    }

    fn empty(&mut self) {
        *self = Berths::new();
    }
}
