// Examples of printed lines: every kind of line, the least and the largest numbers, and both sides of the memory's bound.
#![tactic(auto)]

#[cfg(test)]
mod answered; // the line of an event, taken or refused
#[cfg(test)]
mod lines; // what a line is held to
#[cfg(test)]
mod others; // the lines of the table, and of a refusal that ends the run
