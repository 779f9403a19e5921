// Runs of a net over both wires and both boards.
#![tactic(auto)]

#[cfg(test)]
mod refusals; // each call's own refusals, where a run reaches them
#[cfg(test)]
mod runs; // the same calls over every wire and board
