// The stamping rule, and a batch stamped by it.
ghost use Rattle.std.specs.Prelude.{◌≡◌, ℕ, ◌<◌, ◌≤◌, true, false, length, MatchOption, MatchResult};
ghost use Rattle.batches.specs.Stampings.{batch_of, Stamps, NotStamped};
ghost use Rattle.model.specs.Stamping.{next_pair, step_fits};

use crate::batch::{Batch, BatchFault};
use crate::keeping::is_within;
use ordered::Sorted;
use records::notice::{Decided, Handed};
use records::stamp::{Pair, Stamp};

// The pair that a port with this floor stamps at this clock; none where its step would be above 65,535.
pub fn next_pair(floor: Option<Pair>, clock: u32) -> Option<Pair>
    ensures { MatchOption result (step_fits (next_pair floor clock) ≡ false) (λ p. (p ≡ next_pair floor clock) × (step_fits (next_pair floor clock) ≡ true)) }
{
    let Some(floor) = floor else {
        return Some(Pair { clock, step: 0 });
    };
    if floor.clock < clock {
        return Some(Pair { clock, step: 0 });
    }
    let step = floor.step.checked_add(1)?;
    Some(Pair {
        clock: floor.clock,
        step,
    })
}

impl Batch {
    // Stamps those of the undecided notices whose counts are within the cuts, in their order, each pair becoming the floor
    // for the next.
    pub fn stamp(
        port: u8,
        floor: Option<Pair>,
        undecided: &[Handed],
        cuts: &[u16; 4],
    ) -> Result<Batch, BatchFault>
        ensures { MatchResult result (Stamps port floor cuts.now undecided.now) (NotStamped port floor cuts.now undecided.now) }
    {
        if undecided.len() > 16 {
            return Err(BatchFault::TooMany);
        }
        let mut notices = Sorted::new();
        let mut last = floor;
        // a `for`, since each pair is the floor for the next and the first that does not fit ends it
        for n in undecided {
            if is_within(n, cuts) {
                let Some(pair) = next_pair(last, n.clock) else {
                    return Err(BatchFault::StepUsedUp);
                };
                let stamp = Stamp { pair, port };
                // it is above those stamped before, and there are fewer than 16
                notices
                    .insert(Decided {
                        notice: n.notice,
                        stamp,
                    })
                    .unwrap();
                last = Some(pair);
            }
        }
        Ok(Batch {
            notices,
            floor: last,
        })
    }

    // The notices, by rising stamp.
    pub fn list(&self) -> &[Decided]
        ensures { result.now ≡ batch_of self.now }
    {
        self.notices.as_slice()
    }

    // The floor that they leave.
    pub fn floor(&self) -> Option<Pair>
        ensures { result ≡ self.now.floor }
    {
        self.floor
    }
}
