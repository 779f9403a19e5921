// An ordered list in memory of its own.
ghost use Rattle.std.specs.Prelude.{⊤, ◌≡◌, ◌≤◌, Bool, true, not, [], length, take, filter};
ghost use Rattle.std.specs.Fn.{FnReturnsAt};
ghost use Rattle.ordered.specs.Orders.{all_pass, Rising};

use crate::entry::Entry;
use crate::list::{Full, insert, take_first};
use std::alloc::AllocError;

// At most N entries, in their order: the first `len` places have them. It allocates nothing, and it can be copied, which
// the library's vector of fixed capacity can't. (Copy and Clone are written out, since a derive of them is refused here.)
pub struct Sorted<T: Entry, const N: usize> {
    places: [T; N],
    len: usize,
    ghost within: { len ≤ length places },
    ghost rises: { Rising T.before (take len places) },
}

impl<T: Entry, const N: usize> Copy for Sorted<T, N> {}

impl<T: Entry, const N: usize> Clone for Sorted<T, N> {
    ghost is_clone = { λ x y. y ≡ x };

    ghost is_infallible = { λ _. ⊤ };

    fn clone(&self) -> Result<Self, AllocError> {
        Ok(*self)
    }
}

impl<T: Entry + Default, const N: usize> Sorted<T, N> {
    ghost use Rattle.ordered.specs.Sorted.{entries_of};

    pub fn new() -> Self
        ensures { entries_of result ≡ [] }
    {
        Sorted {
            places: [T::default(); N],
            len: 0,
        }
    }
}

impl<T: Entry, const N: usize> Sorted<T, N> {
    ghost use Rattle.ordered.specs.Sorted.{entries_of, Inserted, TookFirst};

    // The entries, in their order.
    pub fn as_slice(&self) -> &[T]
        ensures value { result.now ≡ entries_of self.now }
        ensures fits { length result.now ≤ N }
    {
        &self.places[..self.len]
    }

    // Whether x is above the last entry or equal to it; since the list rises, it is then before none.
    fn goes_last(&self, x: &T) -> bool
        ensures { result ≡ true → all_pass (λ y. not (T.before x.now y)) (entries_of self.now) ≡ true }
    {
        self.len == 0 || !x.is_before(&self.places[self.len - 1])
    }

    // Puts the entry in its place, behind those with its own key, and answers the place; where there are N, it is refused.
    pub fn insert(&mut self, x: T) -> Result<usize, Full>
        ensures { Inserted x self.old self.new result }
    {
        // tested here, so that a refusal leaves the whole value as it was
        if self.len == N {
            return Err(Full);
        }
        // what comes in order is put behind the others, with no search and no move
        if self.goes_last(&x) {
            self.places[self.len] = x;
            self.len += 1;
            return Ok(self.len - 1);
        }
        let at = insert(&mut self.places, self.len, x).unwrap();
        self.len += 1;
        Ok(at)
    }

    // Takes the first entry, if there is one.
    pub fn take_first(&mut self) -> Option<T>
        ensures { TookFirst self.old self.new result }
    {
        if self.len == 0 {
            return None;
        }
        let first = take_first(&mut self.places, self.len).unwrap();
        self.len -= 1;
        Some(first)
    }

    // Keeps the entries that pass the test, in their order. Written out, since std's and the library's `retain` are of vectors that
    // can't be copied. It asks that the test may be called, as whoever calls a closure that is handed in has to.
    pub fn retain<F: Fn(&T) -> bool>(&mut self, test: F)
        requires { F.IsAlwaysCallable test }
        ensures { (passes : T → Bool) → ((x : T) (b : Bool) → FnReturnsAt F.Fn test x b → b ≡ passes x) → entries_of self.new ≡ filter passes (entries_of self.old) }
    {
        let mut places = self.places;
        let mut len = 0;
        for e in self.as_slice() {
            if test(e) {
                places[len] = *e;
                len += 1;
            }
        }
        *self = Sorted { places, len };
    }
}
