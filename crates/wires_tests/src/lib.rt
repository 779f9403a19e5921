// Both kinds of wire, tried from outside.
#![tactic(auto)]

#[cfg(test)]
mod bags; // what only the bag wire does
#[cfg(test)]
mod rows; // what only the row wire does
#[cfg(test)]
mod sends; // a record to each port of a mask
#[cfg(test)]
mod trials; // what any wire must stand, over both kinds
