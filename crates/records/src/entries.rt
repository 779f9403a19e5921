// Notices as entries of the ordered list: undecided ones by clock, dispatcher, count, decided ones by stamp.
ghost use Rattle.records.specs.Keys.{handed_before, handed_key, decided_before, decided_key};
ghost use Rattle.ordered.proofs.Keys.{total_by, total_then};

use crate::notice::{Decided, Handed};
use ordered::Entry;

impl Entry for Handed {
    ghost key = { handed_key };

    ghost before = { handed_before };

    ghost total = { total_then (λ x. x.clock) _ _ (total_then (λ x. x.notice.dispatcher) _ _ (total_by (λ x. x.notice.count))) };

    fn is_before(&self, other: &Self) -> bool {
        let (mine, theirs) = (self.notice, other.notice);
        (self.clock, mine.dispatcher, mine.count) < (other.clock, theirs.dispatcher, theirs.count)
    }
}

impl Entry for Decided {
    ghost key = { decided_key };

    ghost before = { decided_before };

    ghost total = { total_then (λ x. x.stamp.pair.clock) _ _ (total_then (λ x. x.stamp.pair.step) _ _ (total_by (λ x. x.stamp.port))) };

    fn is_before(&self, other: &Self) -> bool {
        self.stamp.is_before(other.stamp)
    }
}
