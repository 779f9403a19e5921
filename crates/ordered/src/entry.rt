// What an entry of the ordered list shows of its order.
ghost use Rattle.std.specs.Prelude.{◌≡◌, ℕ, Bool, List};
ghost use Rattle.ordered.specs.Orders.{Total};

pub trait Entry: Copy {
    // the numbers by which it is ordered
    ghost key: { Self → List ℕ };

    ghost before: { Self → Self → Bool };

    fn is_before(&self, other: &Self) -> bool
        ensures { result ≡ before self.now other.now };

    ghost total: { Total key before };
}
