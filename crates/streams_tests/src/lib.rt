// Examples of whole streams: the table and the events behind it, where and why a stream is not read, and the longest writing.
#![tactic(auto)]

#[cfg(test)]
mod behind; // event by event, behind the table
#[cfg(test)]
mod input; // how much of an input is read
#[cfg(test)]
mod whole; // the first fault of a whole stream
#[cfg(test)]
mod writing; // the longest writing, read back
