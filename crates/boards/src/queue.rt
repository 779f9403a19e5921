// The queue board: behind the vessel alongside up to three others wait, in the order in which they came.
ghost use Rattle.std.specs.Prelude.{◌≡◌, ◌<◌, refl};
ghost use Rattle.boards.specs.Kinds.{queue, taken_last, left, at_most};
ghost use Rattle.boards.specs.Shown.{Proper};

use crate::berth::Berth;
use crate::berths::Berths;
use crate::outcome::Outcome;
use arrayvec::ArrayVec;
use records::notice::Action;

pub type Queue = Berths<QueueBerth>;

// How many vessels a berth can list, the one alongside counted.
const PLACES: usize = 4;

// The vessels at one berth, in order.
#[derive(Drop)]
pub struct QueueBerth {
    vessels: ArrayVec<u16, PLACES>,
    ghost proper: { Proper (at_most 4) vessels.items },
}

impl QueueBerth {
    fn take(&mut self, vessel: u16) -> Outcome
        requires { 0 < vessel }
        ensures list { self.new.vessels.items ≡ (taken_last self.old.vessels.items vessel).list }
        ensures outcome { result ≡ (taken_last self.old.vessels.items vessel).outcome }
    {
        if self.vessels.is_full() || self.vessels.contains(&vessel) {
            return Outcome::Clash;
        }
        self.vessels.push(vessel);
        if self.vessels.len() == 1 {
            Outcome::Alongside
        } else {
            Outcome::Waits
        }
    }

    fn leave(&mut self, vessel: u16) -> Outcome
        ensures list { self.new.vessels.items ≡ (left self.old.vessels.items vessel).list }
        ensures outcome { result ≡ (left self.old.vessels.items vessel).outcome }
    {
        if !self.vessels.contains(&vessel) {
            return Outcome::Clash;
        }
        self.vessels.retain(|other| *other != vessel);
        Outcome::Gone
    }
}

impl Berth for QueueBerth {
    ghost use Rattle.boards.specs.KindLaws.{queue_leaves, queue_first, queue_once, queue_clash, queue_held};

    ghost vessels = { λ b. b.vessels.items };

    ghost rule = { queue };

    ghost holds = { at_most 4 };

    ghost alone = { λ v some. (refl, refl) };

    ghost leaves = { queue_leaves };

    ghost first = { queue_first };

    ghost once = { queue_once };

    ghost clash = { queue_clash };

    ghost held = { queue_held };

    ghost none_held = { refl };

    ghost proper = { λ b. b.proper };

    fn new() -> Self {
        QueueBerth {
            vessels: ArrayVec::new(),
        }
    }

    fn as_slice(&self) -> &[u16] {
        self.vessels.as_slice()
    }

    fn turn(&mut self, action: Action, vessel: u16) -> Outcome {
        if vessel == 0 {
            return Outcome::Clash;
        }
        match action {
            Action::Take => self.take(vessel),
            Action::Leave => self.leave(vessel),
        }
    }
}
