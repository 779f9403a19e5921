// One port, tried from outside.
#![tactic(auto)]

#[cfg(test)]
mod arrivals; // fetched records, who holds them, and their release
#[cfg(test)]
mod decisions; // hand in, decide and clear
#[cfg(test)]
mod trials; // what both take to try with
