// The ordered list over memory that the caller owns: the first `len` places hold the entries, and the rest is spare. The
// length comes beside the memory, since both are the owner's; `Sorted` keeps the two together.
ghost use Rattle.std.specs.Prelude.{◌≡◌, ℕ, ◌+◌, ◌<◌, ◌≤◌, ◌∷◌, length, take};
ghost use Rattle.ordered.specs.Lists.{Insertion, Put, Taken, Taking};
ghost use Rattle.ordered.specs.Orders.{Place};

use crate::entry::Entry;

// No place is spare.
#[derive(Clone, Copy, PartialEq, Eq, Debug)]
pub struct Full;

// The place of the first entry that `x` is before, or the place behind them all.
fn place<T: Entry>(entries: &[T], x: &T) -> usize
    ensures { Place T.before x.now entries.now result }
{
    entries
        .iter()
        .position(|e| x.is_before(e))
        .unwrap_or(entries.len())
}

// Puts `x` at its place `at`; the entries from there on move one place on.
fn put<T: Entry>(places: &mut [T], len: usize, at: usize, x: T)
    requires room { len < length places.old }
    requires place { Place T.before x (take len places.old) at }
    ensures { Put T.key T.before x len at places.old places.new }
{
    places[at..len + 1].rotate_right(1);
    places[at] = x;
}

// Brings the first entry behind the last, whence the others move up one place.
fn shift<T: Entry>(places: &mut [T], len: usize) -> T
    requires some { 0 < len }
    requires within { len ≤ length places.old }
    ensures { Taken T.before result len places.old places.new }
{
    let first = places[0];
    places[0..len].rotate_left(1);
    first
}

// Puts `x` in front of the first entry that it is before, behind those with its own key, and answers the place. Of n
// entries each is compared at most once and moved at most once.
pub fn insert<T: Entry>(places: &mut [T], len: usize, x: T) -> Result<usize, Full>
    ensures { Insertion T.key T.before x len places.old places.new result }
{
    if places.len() <= len {
        return Err(Full);
    }
    let at = place(&places[0..len], &x);
    put(places, len, at, x);
    Ok(at)
}

// Takes the first entry. It is left in the place that is spare from then on, behind the others.
pub fn take_first<T: Entry>(places: &mut [T], len: usize) -> Option<T>
    ensures { Taking T.before len places.old places.new result }
{
    if len == 0 || places.len() < len {
        return None;
    }
    Some(shift(places, len))
}
