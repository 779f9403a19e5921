// A net: ports, a wire of any kind and a board of any kind, and the calls on it.
#![tactic(auto)]

pub mod net; // the net, with what is always true of it, and its calls
