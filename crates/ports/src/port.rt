// A port: all that it keeps between calls.
ghost use Rattle.std.specs.Prelude.{◌≡◌, ◌<◌, ◌≤◌, true, length};
ghost use Rattle.model.specs.Batches.{goes_to};
ghost use Rattle.ordered.specs.Orders.{all_pass};
ghost use Rattle.ports.specs.Held.{waiting_of};

use crate::dispatcher::Dispatcher;
use crate::undecided::Undecided;
use crate::waiting::Waiting;
use records::stamp::Pair;

pub mod opening; // a fresh port
pub mod handing; // a dispatcher hands a notice in
pub mod deciding; // a batch is planned, and decided
pub mod clearing; // the pair of a clearance, and the floor that it leaves
pub mod admitting; // a fetched record
pub mod releasing; // who holds the lowest waiting notice, and its release

// Port `own`, with the notices that are undecided and those that wait here, and its four dispatchers. `number` is that of the next batch, 65,536 when all are
// used up. The floor is the highest pair among all that the port stamped and the notices released here. The clearance of
// each source is the pair of the last record fetched from it.
#[derive(Clone, Copy)]
pub struct Port {
    own: u8,
    undecided: Undecided,
    dispatchers: [Dispatcher; 4],
    number: Option<u16>,
    floor: Option<Pair>,
    clearances: [Option<Pair>; 8],
    waiting: Waiting,
    ghost port: { own < 8 },
    ghost four: { length dispatchers ≡ 4 },
    ghost sources: { length clearances ≡ 8 },
    ghost addressed: { all_pass (goes_to own) (waiting_of waiting) ≡ true },
}
