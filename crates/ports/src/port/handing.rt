// A dispatcher hands a notice in.
ghost use Rattle.std.specs.Prelude.{◌≡◌, ◌+◌, ◌<◌, ◌≤◌, MatchOption};
ghost use Rattle.model.specs.Stamping.{clock_for};
ghost use Rattle.ports.specs.Ports.{handing_in, HandsIn};

use crate::port::Port;
use records::fault::NetFault;
use records::notice::{Content, Handed, Notice};

// The count behind the last one, of which there is none behind 65,535.
fn next_count(last: u16) -> Option<u16>
    ensures { MatchOption result (65535 ≤ last) (λ count. (last < 65535) × (count ≡ last + 1)) }
{
    last.checked_add(1)
}

// The larger of the reading and the dispatcher's last clock.
fn clock_for(last: u32, reading: u32) -> u32
    ensures { result ≡ clock_for last reading }
{
    last.max(reading)
}

impl Port {
    // The notice gets its dispatcher's next count, which is the answer, and the larger of the reading and his last clock.
    pub fn hand_in(
        &mut self,
        dispatcher: u8,
        reading: u32,
        content: Content,
    ) -> Result<u16, NetFault>
        ensures { HandsIn self.old self.new (handing_in self.old dispatcher reading content.to content.home content.berth content.action content.vessel) result }
    {
        if dispatcher > 3 {
            return Err(NetFault::NoSuchDispatcher);
        }
        let at = dispatcher as usize;
        let him = self.dispatchers[at];
        let Some(count) = next_count(him.given()) else {
            return Err(NetFault::CountUsedUp);
        };
        if self.undecided.list().len() >= 16 {
            return Err(NetFault::UndecidedFull);
        }
        let clock = clock_for(him.clock(), reading);
        let notice = Notice {
            source: self.own,
            dispatcher,
            count,
            to: content.to,
            home: content.home,
            berth: content.berth,
            action: content.action,
            vessel: content.vessel,
        };
        self.undecided.add(Handed { notice, clock }).unwrap();
        self.dispatchers[at] = him.handing(count, clock);
        Ok(count)
    }
}
