// A fresh port.
ghost use Rattle.std.specs.Prelude.{◌≡◌, ◌%◌};
ghost use Rattle.model.specs.Views.{fresh};
ghost use Rattle.ports.specs.Ports.{port_view};

use crate::dispatcher::Dispatcher;
use crate::port::Port;
use crate::undecided::Undecided;
use crate::waiting::Waiting;

impl Port {
    // The port of this number, at which nothing has happened. Ports are numbered 0 to 7: a higher number is taken modulo 8.
    pub fn new(own: u8) -> Port
        ensures own { result.own ≡ own % 8 }
        ensures view { port_view result ≡ fresh }
    {
        Port {
            own: own % 8,
            undecided: Undecided::new(),
            dispatchers: [Dispatcher::new(); 4],
            number: Some(0),
            floor: None,
            clearances: [None; 8],
            waiting: Waiting::new(),
        }
    }
}
