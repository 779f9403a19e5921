// Where a decided notice stands in the common order.
ghost use Rattle.records.specs.Keys.{pair_before, stamp_before};
ghost use Rattle.records.specs.Texts.{pair_text, stamp_text};
ghost use Rattle.std.specs.Prelude.{◌≡◌, Some};

use std::fmt;

// A clock in seconds and a step, which tells apart what is stamped within one second; compared in that order.
#[derive(Clone, Copy, PartialEq, Eq, PartialOrd, Ord, Default, Debug)]
pub struct Pair {
    pub clock: u32,
    pub step: u16,
}

// A pair and the port that gave it; stamps compare by pair, then port, so no two ports give the same one.
#[derive(Clone, Copy, PartialEq, Eq, PartialOrd, Ord, Default, Debug)]
pub struct Stamp {
    pub pair: Pair,
    pub port: u8,
}

impl Pair {
    pub fn is_before(self, other: Pair) -> bool
        ensures { result ≡ pair_before self other }
    {
        self < other // by clock, then step
    }
}

impl Stamp {
    pub fn is_before(self, other: Stamp) -> bool
        ensures { result ≡ stamp_before self other }
    {
        self < other // by pair, then port
    }
}

// As 100.2.
impl fmt::Display for Pair {
    ghost output = { λ x. Some (pair_text x) };

    fn fmt<W: fmt::Write>(&self, f: &mut fmt::Formatter<W>) -> fmt::Result {
        write!(f, "{}.{}", self.clock, self.step)
    }
}

// As 100.2.0.
impl fmt::Display for Stamp {
    ghost output = { λ x. Some (stamp_text x) };

    fn fmt<W: fmt::Write>(&self, f: &mut fmt::Formatter<W>) -> fmt::Result {
        write!(f, "{}.{}", self.pair, self.port)
    }
}
