// The program on a stream with every refusal of a net that a stream can reach: 3 to 7, 9, 11, 12 and 14 to 19.
#![tactic(auto)]

use boards::first_come::FirstCome;
use console::print_run;
use row_wire::RowWire;
use std::io;

fn main(rt: HostRuntime) -> io::Result<()> {
    print_run(&rt, RowWire::new(), FirstCome::new())
}
