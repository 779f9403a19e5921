// What the tests take to try with.
use ports::port::Port;
use records::fault::NetFault;
use records::mask::Mask;
use records::notice::{Action, Content, Decided, Notice, Record};
use records::stamp::{Pair, Stamp};

// A notice for these ports.
pub fn hand(port: &mut Port, dispatcher: u8, reading: u32, bits: u8) -> Result<u16, NetFault> {
    let content = Content {
        to: Mask { bits },
        home: 0,
        berth: 4,
        action: Action::Take,
        vessel: 7,
    };
    port.hand_in(dispatcher, reading, content)
}

pub fn stamp(clock: u32, step: u16, port: u8) -> Stamp {
    Stamp {
        pair: Pair { clock, step },
        port,
    }
}

// A notice of this stamp for these ports.
pub fn decided(clock: u32, step: u16, port: u8, bits: u8) -> Decided {
    Decided {
        notice: Notice {
            source: port,
            dispatcher: 0,
            count: 1,
            to: Mask { bits },
            home: 0,
            berth: 4,
            action: Action::Take,
            vessel: 7,
        },
        stamp: stamp(clock, step, port),
    }
}

pub fn notice(clock: u32, step: u16, port: u8, bits: u8) -> Record {
    Record::Notice(decided(clock, step, port, bits))
}
