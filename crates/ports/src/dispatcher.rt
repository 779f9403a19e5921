// What a port keeps of one of its four dispatchers.
ghost use Rattle.std.specs.Prelude.{◌≡◌, ◌≤◌, ◌&&◌, nat_le};

// The last count that he was given, the last that was decided, and the last clock.
#[derive(Clone, Copy)]
pub struct Dispatcher {
    given: u16,
    settled: u16,
    clock: u32,
    ghost behind: { settled ≤ given },
}

impl Dispatcher {
    // One who has handed nothing in.
    pub(crate) fn new() -> Dispatcher
        ensures { (result.given ≡ 0) × (result.settled ≡ 0) × (result.clock ≡ 0) }
    {
        Dispatcher {
            given: 0,
            settled: 0,
            clock: 0,
        }
    }

    // The last count that he was given.
    pub(crate) fn given(self) -> u16
        ensures { result ≡ self.given }
    {
        self.given
    }

    // The clock that hand in gave him last.
    pub(crate) fn clock(self) -> u32
        ensures { result ≡ self.clock }
    {
        self.clock
    }

    // Whether the cut is at least the last count decided and at most the last given.
    pub(crate) fn allows(self, cut: u16) -> bool
        ensures { result ≡ nat_le self.settled cut && nat_le cut self.given }
    {
        self.settled <= cut && cut <= self.given
    }

    // With one more notice handed in.
    pub(crate) fn handing(self, count: u16, clock: u32) -> Dispatcher
        requires { self.given ≤ count }
        ensures { (result.given ≡ count) × (result.settled ≡ self.settled) × (result.clock ≡ clock) }
    {
        Dispatcher {
            given: count,
            settled: self.settled,
            clock,
        }
    }

    // With what is decided up to the cut.
    pub(crate) fn settling(self, cut: u16) -> Dispatcher
        requires { cut ≤ self.given }
        ensures { (result.given ≡ self.given) × (result.settled ≡ cut) × (result.clock ≡ self.clock) }
    {
        Dispatcher {
            given: self.given,
            settled: cut,
            clock: self.clock,
        }
    }
}
