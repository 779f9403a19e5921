// Examples of event streams and reach tables: every tag, and both sides of every bound of the reader and the table.
#![tactic(auto)]

#[cfg(test)]
mod streams; // where and by which number a stream is refused
#[cfg(test)]
mod tables; // which masks make a reach table
#[cfg(test)]
mod values; // which event a field says
#[cfg(test)]
mod writing; // what is written
