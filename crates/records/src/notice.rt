// Berth notices: what a dispatcher says, before and after it is decided, and what a line carries.
ghost use Rattle.records.specs.Actions.{Names, Says};
ghost use Rattle.records.specs.declared.notice.Record.TheVariants.{Empty};
ghost use Rattle.std.specs.Prelude.{◌≡◌};

use crate::mask::Mask;
use crate::stamp::Stamp;

// What the vessel does at the berth.
#[derive(Clone, Copy, PartialEq, Eq, Default, Debug)]
pub enum Action {
    #[default]
    Take = 1,
    Leave = 2,
}

// A number that is no action's.
#[derive(Clone, Copy, PartialEq, Eq, Debug)]
pub struct UnknownAction(pub u8);

impl TryFrom<u8> for Action {
    type Error = UnknownAction;

    ghost try_from_gives = { Names };

    fn try_from(number: u8) -> Result<Action, UnknownAction> {
        match number {
            1 => Ok(Action::Take),
            2 => Ok(Action::Leave),
            _ => Err(UnknownAction(number)),
        }
    }
}

// What a dispatcher of a port hands in, as plain numbers: nothing is said of their range, since a net refuses them in an
// order of its own.
#[derive(Clone, Copy, PartialEq, Eq, Debug)]
pub struct HandIn {
    pub port: u8,
    pub dispatcher: u8,
    pub reading: u32,
    pub mask: u8,
    pub home: u8,
    pub berth: u8,
    pub action: u8, // as it came: a net tells of a wrong one in an order of its own
    pub vessel: u16,
}

// What a notice says: the ports that must know, and what the vessel does at which berth of the port `home`.
#[derive(Clone, Copy, PartialEq, Eq, Debug)]
pub struct Content {
    pub to: Mask,
    pub home: u8,
    pub berth: u8,
    pub action: Action,
    pub vessel: u16,
}

impl TryFrom<HandIn> for Content {
    type Error = UnknownAction;

    ghost try_from_gives = { Says };

    fn try_from(said: HandIn) -> Result<Content, UnknownAction> {
        Ok(Content {
            to: Mask { bits: said.mask },
            home: said.home,
            berth: said.berth,
            action: Action::try_from(said.action)?,
            vessel: said.vessel,
        })
    }
}

// What a dispatcher says. He is one of four at his port, `source`, and `count` is 1 for his first notice there, 2 for
// his second, and so on. The notice is addressed to the ports in `to`, and is about one berth of the port `home`.
#[derive(Clone, Copy, PartialEq, Eq, Default, Debug)]
pub struct Notice {
    pub source: u8,
    pub dispatcher: u8,
    pub count: u16,
    pub to: Mask,
    pub home: u8,
    pub berth: u8,
    pub action: Action,
    pub vessel: u16,
}

// A notice that is handed in and not decided: it has a clock and no stamp.
#[derive(Clone, Copy, PartialEq, Eq, Default, Debug)]
pub struct Handed {
    pub notice: Notice,
    pub clock: u32,
}

// A notice from its decision on: it has a stamp.
#[derive(Clone, Copy, PartialEq, Eq, Default, Debug)]
pub struct Decided {
    pub notice: Notice,
    pub stamp: Stamp,
}

// What a line carries. An empty notice has only a stamp; it tells that its port will stamp nothing lower, and is never
// released.
#[derive(Clone, Copy, PartialEq, Eq, Debug)]
pub enum Record {
    Notice(Decided),
    Empty(Stamp),
}

impl Default for Record {
    ghost is_default = { λ x. x ≡ Empty (record { pair = record { clock = 0; step = 0 }; port = 0 }) };

    fn default() -> Record {
        Record::Empty(Stamp::default())
    }
}
