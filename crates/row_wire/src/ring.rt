// A queue in slots that are used in turn.
ghost use Rattle.std.specs.Prelude.{◌≡◌, ℕ, ◌+◌, ◌-◌, ◌^◌, ◌<◌, ◌≤◌, ◌==◌, List, [], ◌∷◌, ◌++◌, length, MatchOption};
ghost use Rattle.row_wire.specs.Rings.{ringed};

use std::marker::Model;

// A queue of at most `N` items, of our own since that of std is on the heap: `len` slots, from `head` on and round the end, hold them. What it does takes a time that
// does not depend on how many it holds.
#[derive(Drop)]
pub struct Ring<T, const N: usize> {
    slots: [T; N],
    head: usize,
    len: usize,
}

// Clauses see the items, oldest first.
impl<T, const N: usize> Model for Ring<T, N> {
    ghost Value = { List T };

    ghost view = { λ r. ringed r.head r.len r.slots };

    ghost invariant = { λ r. (r.head < N) × (r.len ≤ N) × (N + N ≤ 2 ^ 64) };
}

impl<T: Copy, const N: usize> Ring<T, N> {
    // An empty ring, in whose slots the blank stands.
    pub fn new(blank: T) -> Ring<T, N>
        requires some { 0 < N }
        requires index_fits { N + N ≤ 2 ^ 64 }
        ensures { result ≡ [] }
    {
        Ring {
            slots: [blank; N],
            head: 0,
            len: 0,
        }
    }

    // How many items more it can hold.
    pub fn free(&self) -> usize
        ensures left { result ≡ N - length self.now }
        ensures within { length self.now ≤ N }
    {
        N - self.len
    }

    pub fn is_full(&self) -> bool
        ensures { result ≡ (length self.now == N) }
    {
        self.len == N
    }

    // Appends the item. There must be room.
    pub fn push(&mut self, item: T)
        requires { length self.old < N }
        ensures { self.new ≡ self.old ++ item ∷ [] }
    {
        self.slots[(self.head + self.len) % N] = item;
        self.len += 1;
    }

    // The oldest item.
    pub fn front(&self) -> Option<T>
        ensures { MatchOption result (self.now ≡ []) (λ x. (rest : List T) × (self.now ≡ x ∷ rest)) }
    {
        if self.len == 0 {
            return None;
        }
        Some(self.slots[self.head])
    }

    // Removes the oldest item.
    pub fn pop(&mut self) -> Option<T>
        ensures { MatchOption result ((self.old ≡ []) × (self.new ≡ [])) (λ x. self.old ≡ x ∷ self.new) }
    {
        let item = self.front()?;
        self.head = (self.head + 1) % N;
        self.len -= 1;
        Some(item)
    }

    // Forgets all items: the slots stay as they are, and are used anew.
    pub fn clear(&mut self)
        ensures { self.new ≡ [] }
    {
        self.len = 0;
    }
}
