// Opening a net.
ghost use Rattle.model.specs.Histories.{Lived};
ghost use Rattle.nets.specs.Promises.{seen};
ghost use Rattle.nets.specs.Views.{table_of};
ghost use Rattle.std.specs.Prelude.{◌≡◌, []};

use crate::net::Net;
use boards::board::Board;
use ports::port::Port;
use records::reach::Reach;
use wires::wire::Wire;

impl<W: Wire, B: Board> Net<W, B> {
    // A net on this table, over the wire and the board, which it empties and owns from then on.
    pub fn open(reach: Reach, mut wire: W, mut board: B) -> Net<W, B>
        ensures table { result.reach ≡ reach }
        ensures lives { Lived W.depth B.rule [] (seen W.Wire B.Board result) }
    {
        wire.empty();
        board.empty();
        let ports = [
            Port::new(0),
            Port::new(1),
            Port::new(2),
            Port::new(3),
            Port::new(4),
            Port::new(5),
            Port::new(6),
            Port::new(7),
        ];
        Net {
            reach,
            ports,
            wire,
            board,
        }
    }
}
