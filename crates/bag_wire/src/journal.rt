// What is found, marked and moved in a journal, oldest entry first.
ghost use Rattle.std.specs.Prelude.{◌≡◌, ◌<◌, [], ◌++◌, map, length, take, drop, MatchOption};
ghost use Rattle.bag_wire.specs.Journals.{kept, marked, First};

use crate::entry::Entry;
use wires::ends::Ends;

// How many entries the line has.
pub fn count(entries: &[Entry], ends: Ends) -> usize
    ensures { result ≡ length (kept entries.now ends.from ends.to) }
{
    entries.iter().filter(|entry| entry.is_on(ends)).count()
}

// The place of the line's oldest entry.
pub fn first(entries: &[Entry], ends: Ends) -> Option<usize>
    ensures { MatchOption result (kept entries.now ends.from ends.to ≡ []) (First entries.now ends.from ends.to) }
{
    entries.iter().position(|entry| entry.is_on(ends))
}

// Marks each entry of the line as arrived.
pub fn mark(entries: &mut [Entry], ends: Ends)
    ensures { entries.new ≡ map (marked ends.from ends.to) entries.old }
{
    // a `for`: no plainer with a closure that writes
    for entry in entries.iter_mut() {
        if entry.is_on(ends) {
            entry.arrived = true;
        }
    }
}

// Moves the first entry behind the others, which keep their order.
pub fn move_behind(entries: &mut [Entry])
    requires { 0 < length entries.old }
    ensures { entries.new ≡ drop 1 entries.old ++ take 1 entries.old }
{
    entries.rotate_left(1);
}
