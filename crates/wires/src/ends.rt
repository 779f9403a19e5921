// Which line is meant.
ghost use Rattle.std.specs.Prelude.{◌≡◌};
ghost use Rattle.wires.specs.Lines.{is_line};

// The two ends of a line: the port that sends on it, and the port that takes from it.
#[derive(Clone, Copy, PartialEq, Eq, Default, Debug)]
pub struct Ends {
    pub from: u8,
    pub to: u8,
}

impl Ends {
    // Whether there is such a line.
    pub fn is_line(self) -> bool
        ensures { result ≡ is_line self.from self.to }
    {
        self.from < 8 && self.to < 8 && self.from != self.to
    }
}
