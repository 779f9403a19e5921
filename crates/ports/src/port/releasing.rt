// Who holds the lowest waiting notice, and its release.
ghost use Rattle.model.specs.Holding.{holds};
ghost use Rattle.model.specs.Stamping.{raised};
ghost use Rattle.ports.specs.Held.{Lowest};
ghost use Rattle.ports.specs.Ports.{port_view, holders_of, Releases};
ghost use Rattle.std.specs.Prelude.{◌≡◌};

use crate::port::Port;
use records::mask::Mask;
use records::notice::Decided;
use records::reach::Reach;
use records::stamp::Pair;

// Whether a source of this clearance holds a notice of this pair.
fn holds(clearance: Option<Pair>, pair: Pair) -> bool
    ensures { result ≡ holds clearance pair }
{
    clearance.is_none_or(|clearance| clearance.is_before(pair))
}

// The floor with one more pair among those that it is the highest of.
fn raised(floor: Option<Pair>, pair: Pair) -> Option<Pair>
    ensures { result ≡ raised floor pair }
{
    floor.max(Some(pair))
}

impl Port {
    // The lowest waiting notice, if any waits.
    pub fn lowest(&self) -> Option<Decided>
        ensures { Lowest (port_view self.now).waiting result }
    {
        self.waiting.lowest()
    }

    // Those who can send here and hold a notice of this pair: their clearance is missing, or below it.
    pub fn holders(&self, reach: &Reach, pair: Pair) -> Mask
        ensures { result.bits ≡ holders_of reach.now.masks self.now.own (port_view self.now) pair }
    {
        // bit by bit: a sum by an iterator would have to be shown to fit a byte all the same
        let mut bits = 0;
        for (f, clearance) in self.clearances.iter().enumerate() {
            if reach.sends(f as u8, self.own) & holds(*clearance, pair) {
                bits += 1u8 << f;
            }
        }
        Mask { bits }
    }

    // The lowest waiting notice leaves, and the floor rises to its pair if that is higher.
    pub fn release(&mut self) -> Option<Decided>
        ensures { Releases self.old self.new result }
    {
        let notice = self.lowest()?;
        self.waiting.take_lowest();
        self.floor = raised(self.floor, notice.stamp.pair);
        Some(notice)
    }
}
