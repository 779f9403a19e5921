// What a user of any kind of board learns from its promises alone.
ghost use Rattle.std.specs.Prelude.{◌≡◌, ℕ, ◌<◌, ◌≤◌, true, [], ◌∷◌, length};
ghost use Rattle.boards.specs.Shown.{in_range};
ghost use Rattle.boards.specs.declared.outcome.Outcome.TheVariants.{Alongside};

use boards::board::Board;
use boards::outcome::Outcome;
use boards::spot::Spot;
use records::notice::Action;

// Empties the board, and berths one vessel at one port's view of a berth.
pub fn first_visit<B: Board>(board: &mut B, at: Spot, vessel: u16) -> Outcome
    ensures alongside { in_range at.watching at.home at.berth vessel ≡ true → result ≡ Alongside }
    ensures alone { in_range at.watching at.home at.berth vessel ≡ true → B.Board.shown board.new at.watching at.home at.berth ≡ vessel ∷ [] }
{
    board.empty();
    board.apply(at, Action::Take, vessel)
}
