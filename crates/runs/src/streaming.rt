// Runs a whole stream against a net that it opens.
ghost use Rattle.events.specs.Fields.{read_at};
ghost use Rattle.model.specs.Histories.{Lived};
ghost use Rattle.nets.specs.Views.{table_of, view};
ghost use Rattle.runs.specs.Runs.{RanEvents, RanStream, FirstStops, TurnAnswers};
ghost use Rattle.std.specs.Prelude.{◌≡◌, ℕ, [], MatchResult};

use crate::stepping::run_event;
use answers::answer::Answered;
use boards::board::Board;
use nets::net::Net;
use std::alloc::Global;
use streams::behind::{EventReader, open_stream};
use streams::part::{Refusal, StreamFault};
use wires::wire::Wire;

// What a stream came to: the answers to its events in their order, the net after them, and whether the stream was run to its
// end or what ended the run.
#[derive(Drop)]
pub struct Run<W, B> {
    pub answers: Vec<Answered>,
    pub net: Net<W, B>,
    pub end: Result<(), StreamFault>,
}

// The first field was refused, so that no net was opened: wire and board are given back as they were handed over.
#[derive(Drop)]
pub struct Unopened<W, B> {
    pub refusal: Refusal,
    pub wire: W,
    pub board: B,
}

// Reads the next event, runs it and keeps its answer; false at the end of the stream. No more is answered, since the answer is
// kept already.
fn run_next<W: Wire, B: Board>(
    events: &mut EventReader,
    net: &mut Net<W, B>,
    answers: &mut Vec<Answered>,
) -> Result<bool, StreamFault>
    ensures stream { events.new.stream.now ≡ events.old.stream.now }
    ensures turn { TurnAnswers W.depth B.rule events.old.stream.now events.old.place answers.old.items (view W.line B.shown net.old) events.new.place answers.new.items (view W.line B.shown net.new) result }
{
    let at = events.place();
    let Some(event) = events.next()? else {
        return Ok(false);
    };
    // memory first: an event that is run is answered
    answers
        .reserve(1)
        .map_err(|_| StreamFault::NoMemory { place: at })?;
    let answer = run_event(net, event);
    let answered = Answered {
        place: at,
        event,
        answer,
    };
    answers.push_reserved(answered);
    Ok(true)
}

// Runs the events that are left, one after the other.
fn run_events<W: Wire, B: Board>(
    events: &mut EventReader,
    net: &mut Net<W, B>,
    answers: &mut Vec<Answered>,
) -> Result<(), StreamFault>
    requires { (Lived W.depth B.rule [] (view W.line B.shown net.old)) × (answers.old.items ≡ []) }
    ensures table { (view W.line B.shown net.new).table ≡ (view W.line B.shown net.old).table }
    ensures ran { RanEvents W.depth B.rule events.old.stream.now events.old.place answers.new.items result (view W.line B.shown net.new) }
{
    'fields: loop {
        if !run_next(events, net, answers)? {
            return Ok(());
        }
    }
}

// Opens a net on the stream's table, over the wire and the board, and runs the stream's events on it. A net's refusal is an
// answer; a refusal by the reader or by the table ends the run.
pub fn run_stream<W: Wire, B: Board>(
    heap: Global,
    stream: &[u8],
    wire: W,
    board: B,
) -> Result<Run<W, B>, Unopened<W, B>>
    ensures { MatchResult result (λ run. RanStream W.depth B.rule stream.now run.answers.items run.end (view W.line B.shown run.net)) (λ u. FirstStops stream.now u.refusal × (u.wire ≡ wire) × (u.board ≡ board)) }
{
    let opened = match open_stream(stream) {
        Ok(opened) => opened,
        Err(part) => {
            let refusal = Refusal { place: 0, part };
            return Err(Unopened {
                refusal,
                wire,
                board,
            });
        }
    };
    let mut events = opened.events(stream);
    let mut net = Net::open(opened.table(), wire, board);
    let mut answers = Vec::new(heap);
    let end = run_events(&mut events, &mut net, &mut answers);
    Ok(Run { answers, net, end })
}
