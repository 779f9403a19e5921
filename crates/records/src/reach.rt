// The reach table: which port can send to which.
ghost use Rattle.std.specs.Prelude.{◌≡◌, ℕ, ◌<◌, ◌≤◌, length, MatchBool, MatchResult, slice_index_or};
ghost use Rattle.records.specs.Masks.{named};
ghost use Rattle.records.specs.Reaching.{nobody, sends, Sound, Misnames, Refuses, Holds};

use crate::fault::TableFault;
use crate::mask::Mask;

// For each port the other ports to which it can send. There are 2 to 8 ports, no port sends to itself, and none to a
// port that the table does not have; a table against that cannot be made.
#[derive(Clone, Copy)]
pub struct Reach {
    masks: [Mask; 8],
    ports: u8,
    ghost places: { length masks ≡ 8 },
    ghost count: { (2 ≤ ports) × (ports ≤ 8) },
    ghost sound: { Sound ports masks },
}

// Whether the mask of `port`, in a table of so many ports, names the port itself or one outside the table.
fn misnames(mask: Mask, port: usize, ports: usize) -> bool
    ensures { MatchBool result ((q : ℕ) × Misnames ports port mask.bits q) ((q : ℕ) → Misnames ports port mask.bits q → ⊥) }
{
    (0..8u8).any(|q| mask.names(q) && (q as usize == port || q as usize >= ports))
}

impl Reach {
    pub fn new(masks: &[u8]) -> Result<Reach, TableFault>
        ensures { MatchResult result (λ t. Holds masks.now t.ports t.masks) (λ f. Refuses masks.now f) }
    {
        let ports = masks.len();
        if ports < 2 || ports > 8 {
            return Err(TableFault::WrongCount);
        }
        let mut table = [Mask { bits: 0 }; 8];
        for (port, bits) in masks.iter().enumerate() {
            let mask = Mask { bits: *bits };
            if misnames(mask, port, ports) {
                return Err(TableFault::WrongMask);
            }
            table[port] = mask;
        }
        Ok(Reach {
            masks: table,
            ports: ports as u8,
        })
    }

    // How many ports the table has; they are numbered from 0.
    pub fn ports(&self) -> u8
        ensures { result ≡ self.now.ports }
    {
        self.ports
    }

    // The ports to which `port` can send: none where the table has no such port.
    pub fn mask(&self, port: u8) -> Mask
        ensures { result ≡ slice_index_or self.now.masks port nobody }
    {
        self.masks.get(port as usize).copied().unwrap_or_default()
    }

    // Whether port `from` can send to port `to`.
    pub fn sends(&self, from: u8, to: u8) -> bool
        ensures { result ≡ sends self.now.masks from to }
    {
        self.mask(from).names(to)
    }
}
