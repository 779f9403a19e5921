// Why a call is turned down: an enum for each part that refuses, in checking order, with the number of each case.
ghost use Rattle.records.specs.Numbers.{table_number, net_number, reader_number, output_number};
ghost use Rattle.records.specs.declared.fault.NetFault.TheVariants.{WrongContent};
ghost use Rattle.std.specs.Prelude.{◌≡◌};

use crate::mask::Mask;
use crate::notice::UnknownAction;

// A reach table that cannot be.
#[derive(Clone, Copy, PartialEq, Eq, Debug)]
pub enum TableFault {
    // fewer than 2 or more than 8 masks
    WrongCount = 1,
    // a mask names its own port, or one outside the table
    WrongMask = 2,
}

// A call on a net that is turned down.
#[derive(Clone, Copy, PartialEq, Eq, Debug)]
pub enum NetFault {
    // a port number is outside the table
    NoSuchPort,
    // the line's source cannot send to its end
    OutOfReach,
    // a dispatcher above 3
    NoSuchDispatcher,
    // home outside the table, berth above 15, action neither 1 nor 2, or vessel 0
    WrongContent,
    // the mask is empty, or names a port neither its own nor in reach
    WrongDestinations,
    // the dispatcher's last count is 65,535
    CountUsedUp,
    // 16 notices of the port are undecided
    UndecidedFull,
    // fewer than 16 places in the working list
    WorkingListShort,
    // not the port's next batch number, or there is none after 65,535
    WrongNumber,
    // a cut below the last count decided, or above the last handed in
    WrongCut,
    // a step above 65,535 would be needed
    StepUsedUp,
    // more than eight of the port's own would wait there
    OwnWaitingFull,
    // a line has too few free places
    LineFull,
    // nothing has arrived
    NothingArrived,
    // a notice, and eight of that source wait
    SourceWaitingFull,
    // nothing waits
    NothingWaits,
    // the lowest waiting notice is held, by these senders
    Held(Mask),
}

// A field of an event stream that is not read.
#[derive(Clone, Copy, PartialEq, Eq, Debug)]
pub enum ReaderFault {
    // the stream is longer than 32,768 bytes
    StreamTooLong = 20,
    // one or two bytes follow a field, or the whole stream has fewer than three
    LooseBytes = 21,
    // the tag is none of 1 to 6 and 16
    UnknownTag = 22,
    // the first field has not tag 16, or a later one has it
    MisplacedTag = 23,
    // the length is not the tag's
    WrongLength = 24,
    // fewer bytes remain than the length says
    MissingBytes = 25,
}

// A stream or a printed line that is not written.
#[derive(Clone, Copy, PartialEq, Eq, Debug)]
pub enum OutputFault {
    // the stream would be longer than 32,768 bytes
    StreamTooLong = 20,
    // the output memory is too short
    MemoryTooShort = 26,
}

impl From<UnknownAction> for NetFault {
    ghost from_gives = { λ _ fault. fault ≡ WrongContent };

    fn from(_action: UnknownAction) -> NetFault {
        NetFault::WrongContent
    }
}

// Each fault tells its number under this one name, which says more than a conversion.
impl TableFault {
    pub fn number(self) -> u8
        ensures { result ≡ table_number self }
    {
        self as u8 // 1 or 2
    }
}

impl NetFault {
    pub fn number(self) -> u8
        ensures { result ≡ net_number self }
    {
        // one case holds the holders, and so the cases have no numbers that a cast could give
        match self {
            NetFault::NoSuchPort => 3,
            NetFault::OutOfReach => 4,
            NetFault::NoSuchDispatcher => 5,
            NetFault::WrongContent => 6,
            NetFault::WrongDestinations => 7,
            NetFault::CountUsedUp => 8,
            NetFault::UndecidedFull => 9,
            NetFault::WorkingListShort => 10,
            NetFault::WrongNumber => 11,
            NetFault::WrongCut => 12,
            NetFault::StepUsedUp => 13,
            NetFault::OwnWaitingFull => 14,
            NetFault::LineFull => 15,
            NetFault::NothingArrived => 16,
            NetFault::SourceWaitingFull => 17,
            NetFault::NothingWaits => 18,
            NetFault::Held(_) => 19,
        }
    }
}

impl ReaderFault {
    pub fn number(self) -> u8
        ensures { result ≡ reader_number self }
    {
        self as u8 // 20 to 25
    }
}

impl OutputFault {
    pub fn number(self) -> u8
        ensures { result ≡ output_number self }
    {
        self as u8 // 20 or 26
    }
}
