// Examples of boards: each outcome on each kind, and both sides of every bound.
#![tactic(auto)]

pub mod rules; // which rule each kind of board follows
pub mod visits; // what a user of any kind of board learns
#[cfg(test)]
mod kinds; // what each kind makes of a notice
#[cfg(test)]
mod ranges; // which numbers a board takes
