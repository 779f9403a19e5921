// How many notices go to a port or come from one, and how many copies they make.
ghost use Rattle.std.specs.Prelude.{◌≡◌, ◌≤◌, length};
ghost use Rattle.model.specs.Batches.{sent_to, count_from, copies_of};

use records::notice::Decided;

// How many of the notices are addressed to the port.
pub fn count_for(notices: &[Decided], port: u8) -> usize
    ensures value { result ≡ length (sent_to port notices.now) }
    ensures few { result ≤ length notices.now }
{
    notices.iter().filter(|d| d.notice.to.names(port)).count()
}

// How many of the notices were stamped by the source. It shares one line with the count above, too little for a function of
// both.
pub fn count_from(notices: &[Decided], source: u8) -> usize
    ensures value { result ≡ count_from source notices.now }
    ensures few { result ≤ length notices.now }
{
    notices.iter().filter(|d| d.stamp.port == source).count()
}

// How many copies the port makes of its notices: one for each destination but itself.
pub fn copies(notices: &[Decided], port: u8) -> usize
    ensures { result ≡ copies_of port notices.now }
{
    notices
        .iter()
        .map(|d| d.notice.to.without(port).count())
        .sum()
}
