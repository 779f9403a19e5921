// The program on a stream whose third field is damaged: a release of two bytes. What comes before it is run and printed.
#![tactic(auto)]

use boards::first_come::FirstCome;
use console::print_run;
use row_wire::RowWire;
use std::io;

fn main(rt: HostRuntime) -> io::Result<()> {
    print_run(&rt, RowWire::new(), FirstCome::new())
}
