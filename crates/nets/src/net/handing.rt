// Handing in.
ghost use Rattle.model.specs.Calls.{hand_in};
ghost use Rattle.model.specs.Histories.{handed};
ghost use Rattle.model.specs.Refusals.{in_reach};
ghost use Rattle.nets.specs.Handing.{addressed, content_of, hand_in_call, wrong_content};
ghost use Rattle.nets.specs.Promises.{Promised};
ghost use Rattle.nets.specs.Views.{table_of, SameNet};
ghost use Rattle.records.specs.declared.fault.NetFault.TheVariants.{WrongContent};
ghost use Rattle.std.specs.Prelude.{◌≡◌, true, false, MatchResult, OnErr, nat_lt};

use crate::net::Net;
use boards::board::Board;
use records::fault::NetFault;
use records::mask::Mask;
use records::notice::{Content, HandIn};
use wires::wire::Wire;

// Whether the number is none of a port's four dispatchers, 0 to 3.
fn beyond_four(dispatcher: u8) -> bool
    ensures { result ≡ nat_lt 3 dispatcher }
{
    dispatcher > 3
}

impl<W, B> Net<W, B> {
    // What the notice says. None can be about this: home outside the table, berth above 15, action neither 1 nor 2, or
    // vessel 0.
    fn content(&self, said: HandIn) -> Result<Content, NetFault>
        ensures { MatchResult result (λ content. (wrong_content (table_of self.now.reach) said.home said.berth said.action said.vessel ≡ false) × (content ≡ content_of said)) (λ f. (f ≡ WrongContent) × (wrong_content (table_of self.now.reach) said.home said.berth said.action said.vessel ≡ true)) }
    {
        if self.lacks(said.home) || said.berth > 15 || said.vessel == 0 {
            return Err(NetFault::WrongContent);
        }
        Ok(Content::try_from(said)?)
    }

    // Whether the port's notice may go to another port or to itself, or the mask does not name that one.
    fn may_name(&self, port: u8, mask: Mask, to: u8) -> bool
        ensures { result ≡ addressed (table_of self.now.reach) port mask.bits to }
    {
        !mask.names(to) || to == port || self.reach.sends(port, to)
    }

    // Whether the mask names no port but the port itself and those in its reach.
    fn in_reach(&self, port: u8, mask: Mask) -> bool
        ensures { result ≡ in_reach (table_of self.now.reach) port mask.bits }
    {
        (0..8u8).all(|to| self.may_name(port, mask, to))
    }
}

impl<W: Wire, B: Board> Net<W, B> {
    // A dispatcher of the port hands a notice in; the answer is its count.
    pub fn hand_in(&mut self, said: HandIn) -> Result<u16, NetFault>
        ensures kept { Promised W.Wire B.Board self.old self.new result (handed (hand_in_call said)) (hand_in (hand_in_call said)) }
        ensures same { OnErr result (SameNet self.old self.new) }
    {
        if self.lacks(said.port) {
            return Err(NetFault::NoSuchPort);
        }
        if beyond_four(said.dispatcher) {
            return Err(NetFault::NoSuchDispatcher);
        }
        let content = self.content(said)?;
        if content.to.is_empty() | !self.in_reach(said.port, content.to) {
            return Err(NetFault::WrongDestinations);
        }
        let at = said.port as usize;
        let ports = &mut self.ports;
        ports[at].hand_in(said.dispatcher, said.reading, content)
    }
}
