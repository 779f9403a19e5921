// What the calls look up in the table.
ghost use Rattle.model.specs.Views.{outside};
ghost use Rattle.nets.specs.Views.{table_of};
ghost use Rattle.std.specs.Prelude.{◌≡◌};

use crate::net::Net;

impl<W, B> Net<W, B> {
    // Whether the number is no port's of the table.
    pub(crate) fn lacks(&self, port: u8) -> bool
        ensures { result ≡ outside (table_of self.now.reach) port }
    {
        !(port < self.reach.ports())
    }
}
