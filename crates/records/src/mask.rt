// Sets of ports.
ghost use Rattle.records.specs.Masks.{named, without};
ghost use Rattle.std.specs.Prelude.{◌≡◌, ℕ, not, ◌&&◌, ◌==◌, ◌≤◌, count_ones};

// Bit i, of value 2 to the power i, stands for port i.
#[derive(Clone, Copy, PartialEq, Eq, Default, Debug)]
pub struct Mask {
    pub bits: u8,
}

impl Mask {
    // Whether the mask names the port; no mask names one above 7.
    pub fn names(self, port: u8) -> bool
        ensures { result ≡ named self.bits port }
    {
        port < 8 && (self.bits >> port) % 2 == 1
    }

    // Whether it names no port.
    pub fn is_empty(self) -> bool
        ensures { result ≡ (self.bits == 0) }
    {
        self == Mask::default()
    }

    // How many ports it names.
    pub fn count(self) -> usize
        ensures value { result ≡ count_ones self.bits }
        ensures few { result ≤ 8 }
    {
        self.bits.count_ones() as usize
    }

    // The mask of the other ports that it names: the one place where a port is taken out of a mask.
    pub fn without(self, port: u8) -> Mask
        ensures value { result.bits ≡ without port self.bits }
        ensures others { (q : ℕ) → named result.bits q ≡ (named self.bits q && not (q == port)) }
    {
        if self.names(port) {
            let bits = self.bits ^ (1u8 << port);
            return Mask { bits };
        }
        self
    }
}
