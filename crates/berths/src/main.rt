// Runs the event stream on standard input on a net over the row wire and the first-come board, and prints a line for each
// field.
#![tactic(auto)]

use boards::first_come::FirstCome;
use console::print_run;
use row_wire::RowWire;
use std::io;

fn main(rt: HostRuntime) -> io::Result<()> {
    print_run(&rt, RowWire::new(), FirstCome::new())
}
