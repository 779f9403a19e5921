// What came of a notice at a board.
ghost use Rattle.boards.specs.Rules.{outcome_number};
ghost use Rattle.std.specs.Prelude.{◌≡◌};

#[derive(Clone, Copy, PartialEq, Eq, Debug)]
pub enum Outcome {
    // the vessel has the berth
    Alongside = 1,
    // the vessel has left the list
    Gone = 2,
    // the notice does not fit the list, which stays as it was
    Clash = 3,
    // the vessel stands in the list behind another
    Waits = 4,
}

impl Outcome {
    // Its number as the rules tell it; a name says more than a conversion.
    pub fn number(self) -> u8
        ensures { result ≡ outcome_number self }
    {
        self as u8
    }
}
