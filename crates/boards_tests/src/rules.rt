// Which rule each kind of board follows.
ghost use Rattle.boards.specs.Kinds.{first_come, queue};
ghost use Rattle.boards.specs.Shown.{Applied};

use boards::board::Board;
use boards::first_come::FirstCome;
use boards::outcome::Outcome;
use boards::queue::Queue;
use boards::spot::Spot;
use records::notice::Action;

pub fn by_first_come(board: &mut FirstCome, at: Spot, action: Action, vessel: u16) -> Outcome
    ensures { Applied first_come (⟦<FirstCome as Board>⟧.shown board.old) (⟦<FirstCome as Board>⟧.shown board.new) at.watching at.home at.berth action vessel result }
{
    board.apply(at, action, vessel)
}

pub fn by_queue(waiting: &mut Queue, at: Spot, action: Action, vessel: u16) -> Outcome
    ensures { Applied queue (⟦<Queue as Board>⟧.shown waiting.old) (⟦<Queue as Board>⟧.shown waiting.new) at.watching at.home at.berth action vessel result }
{
    waiting.apply(at, action, vessel)
}
