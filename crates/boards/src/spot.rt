// Which list of a board.
ghost use Rattle.boards.specs.Places.{place_of};
ghost use Rattle.std.specs.Prelude.{◌≡◌};

// How many lists a board has: 8 watching ports, 8 home ports, 16 berths.
pub(crate) const LISTS: usize = 8 * 8 * 16;

// The list of a watching port for a berth of a home port.
#[derive(Clone, Copy, PartialEq, Eq, Debug)]
pub struct Spot {
    pub watching: u8,
    pub home: u8,
    pub berth: u8,
}

impl Spot {
    pub fn new(watching: u8, home: u8, berth: u8) -> Spot
        ensures { result ≡ record { watching = watching; home = home; berth = berth } }
    {
        Spot {
            watching,
            home,
            berth,
        }
    }

    // Where the list lies in an array of all lists, if there is such a list. The array is flat: with arrays in arrays, which
    // were tried, the proof of a board's `apply` did not know how long the inner ones are.
    pub(crate) fn index(self) -> Option<usize>
        ensures { result ≡ place_of self.watching self.home self.berth }
    {
        if self.watching < 8 && self.home < 8 && self.berth <= 15 {
            Some(
                usize::from(self.watching) * 128
                    + usize::from(self.home) * 16
                    + usize::from(self.berth),
            )
        } else {
            None
        }
    }
}
