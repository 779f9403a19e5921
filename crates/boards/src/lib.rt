// What a port shows of its berths: the trait that every kind of board meets, and two kinds of board.
#![tactic(auto)]

pub mod berth; // the trait of the list that a kind of board keeps of one berth
pub mod berths; // the board of such lists, one for each berth
pub mod board; // the trait, with the laws of a kind's rule
pub mod first_come; // a berth has one vessel or none
pub mod outcome; // what came of a notice at a board
pub mod queue; // up to three vessels wait behind the one alongside
pub mod spot; // which list of a board

pub use berth::Berth;
pub use berths::Berths;
pub use board::Board;
pub use first_come::FirstCome;
pub use outcome::Outcome;
pub use queue::Queue;
pub use spot::Spot;
