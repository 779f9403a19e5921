// The first-come board: a berth has one vessel or none, and nobody waits.
ghost use Rattle.std.specs.Prelude.{◌≡◌, refl};
ghost use Rattle.boards.specs.Kinds.{first_come, at_most};
ghost use Rattle.boards.specs.Places;

use crate::berth::Berth;
use crate::berths::Berths;
use crate::outcome::Outcome;
use records::notice::Action;
use std::slice;

pub type FirstCome = Berths<FirstComeBerth>;

// The vessel alongside, 0 where there is none: no vessel has that number, and an `Option` of it would take twice the memory.
#[derive(Drop)]
pub struct FirstComeBerth {
    alongside: u16,
}

impl Berth for FirstComeBerth {
    ghost use Rattle.boards.specs.KindLaws.{first_come_leaves, first_come_first, first_come_once, first_come_clash, first_come_held, proper_alone};

    ghost vessels = { λ b. Places.alone b.alongside };

    ghost rule = { first_come };

    ghost holds = { at_most 1 };

    ghost alone = { λ v some. (refl, refl) };

    ghost leaves = { first_come_leaves };

    ghost first = { first_come_first };

    ghost once = { first_come_once };

    ghost clash = { first_come_clash };

    ghost held = { first_come_held };

    ghost none_held = { refl };

    ghost proper = { λ b. proper_alone b.alongside };

    fn new() -> Self {
        FirstComeBerth { alongside: 0 }
    }

    fn as_slice(&self) -> &[u16] {
        if self.alongside == 0 {
            &[]
        } else {
            slice::from_ref(&self.alongside)
        }
    }

    fn turn(&mut self, action: Action, vessel: u16) -> Outcome {
        if vessel == 0 {
            return Outcome::Clash;
        }
        match action {
            Action::Take => {
                if self.alongside != 0 {
                    return Outcome::Clash;
                }
                self.alongside = vessel;
                Outcome::Alongside
            }
            Action::Leave => {
                if self.alongside != vessel {
                    return Outcome::Clash;
                }
                self.alongside = 0;
                Outcome::Gone
            }
        }
    }
}
