// Reading a port's board.
ghost use Rattle.nets.specs.Promises.{seen};
ghost use Rattle.std.specs.Prelude.{◌≡◌, length, slice_index};

use crate::net::Net;
use boards::board::Board;
use boards::spot::Spot;
use wires::wire::Wire;

impl<W: Wire, B: Board> Net<W, B> {
    // How many vessels the watching port's board shows for a berth of the home port.
    pub fn vessels(&self, at: Spot) -> usize
        ensures { result ≡ length ((seen W.Wire B.Board self.now).shown at.watching at.home at.berth) }
    {
        self.board.len(at)
    }

    // The vessel at a place of that list, counted from 0: first the one alongside; 0 where there is none.
    pub fn vessel_at(&self, at: Spot, place: usize) -> u16
        ensures { result ≡ slice_index ((seen W.Wire B.Board self.now).shown at.watching at.home at.berth) place }
    {
        self.board.vessel_at(at, place)
    }
}
