// A net, with what is always true of it.
ghost use Rattle.std.specs.Prelude.{◌≡◌, [], ◌∷◌, map};

use ports::port::Port;
use records::reach::Reach;

pub mod bringing; // bring
pub mod clearing; // clear
pub mod deciding; // decide
pub mod fetching; // fetch
pub mod handing; // hand in
pub mod opening; // open
pub mod releasing; // release
mod reading; // what the calls look up in the table
pub mod showing; // a port's board, read

// A reach table, a port for each of eight numbers, of which those of the table are used, and the wire and the board that the
// net owns.
#[derive(Drop)]
pub struct Net<W, B> {
    reach: Reach,
    ports: [Port; 8],
    wire: W,
    board: B,
    ghost own: { map (λ p. p.own) ports ≡ 0 ∷ 1 ∷ 2 ∷ 3 ∷ 4 ∷ 5 ∷ 6 ∷ 7 ∷ [] },
}
