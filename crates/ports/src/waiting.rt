// The notices of a port that wait for release.
ghost use Rattle.std.specs.Prelude.{◌≡◌, ℕ, ◌≤◌, true, nat_lt};
ghost use Rattle.model.specs.Batches.{count_from};
ghost use Rattle.ordered.specs.Orders.{all_pass};
ghost use Rattle.ordered.specs.Sorted.{entries_of};

use ordered::Sorted;
use records::notice::Decided;

pub mod queueing; // joining, looking at the lowest, and taking it

// By stamp. At most eight of each of eight ports wait.
#[derive(Clone, Copy)]
pub struct Waiting {
    notices: Sorted<Decided, 64>,
    ghost known: { all_pass (λ d. nat_lt d.stamp.port 8) (entries_of notices) ≡ true },
    ghost crowds: { (p : ℕ) → count_from p (entries_of notices) ≤ 8 },
}
