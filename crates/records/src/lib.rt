// What ports say to one another, and the numbers of all refusals. Nothing here knows a wire, a board or a net.
#![tactic(auto)]

pub mod entries; // notices as entries of the ordered list
pub mod fault; // why a call is turned down, an enum for each part, with its number
pub mod mask; // sets of ports
pub mod notice; // what is handed in, decided, and carried by a line
pub mod reach; // which port can send to which
pub mod stamp; // pairs and stamps, by which notices are ordered

pub use fault::{NetFault, OutputFault, ReaderFault, TableFault};
pub use mask::Mask;
pub use notice::{Action, Content, Decided, HandIn, Handed, Notice, Record, UnknownAction};
pub use reach::Reach;
pub use stamp::{Pair, Stamp};
