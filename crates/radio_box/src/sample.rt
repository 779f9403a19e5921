// What the box sends of an event: a sample record, as if the event were decided at once.
ghost use Rattle.radio_box.specs.Samples.{stamp_of, Beside, Sends, SendsNothing};
ghost use Rattle.records.specs.declared.notice.Record.TheVariants.{Notice as NoticeRecord};
ghost use Rattle.std.specs.Prelude.{◌≡◌, MatchOption};

use events::event::Event;
use records::mask::Mask;
use records::notice::{Action, Decided, Notice, Record};
use records::reach::Reach;
use records::stamp::{Pair, Stamp};

// A record, from a port to each port of a mask.
#[derive(Clone, Copy)]
pub struct Sample {
    pub from: u8,
    pub to: Mask,
    pub record: Record,
}

fn stamp(reading: u32, port: u8) -> Stamp
    ensures { result ≡ stamp_of reading port }
{
    let pair = Pair {
        clock: reading,
        step: 0,
    };
    Stamp { pair, port }
}

// The notice, stamped with its dispatcher's reading, for each port of its mask but its own.
fn sample_of_notice(notice: Notice, reading: u32) -> Sample
    ensures from { result.from ≡ notice.source }
    ensures to { Beside notice.source notice.to.bits result.to.bits }
    ensures item { result.«record» ≡ NoticeRecord (record { notice = notice; stamp = stamp_of reading notice.source }) }
{
    let stamp = stamp(reading, notice.source);
    Sample {
        from: notice.source,
        to: notice.to.without(notice.source),
        record: Record::Notice(Decided { notice, stamp }),
    }
}

// The sample of an event: of a hand-in its notice, of a clear an empty notice for each port in reach. Nothing is sent of
// other events, nor of a hand-in whose action is none.
pub fn sample_of(table: &Reach, event: Event) -> Option<Sample>
    ensures { MatchOption result (SendsNothing event) (Sends table.now.masks event) }
{
    match event {
        Event::HandIn(hand_in) => {
            let notice = Notice {
                source: hand_in.port,
                dispatcher: hand_in.dispatcher,
                count: 0,
                to: Mask { bits: hand_in.mask },
                home: hand_in.home,
                berth: hand_in.berth,
                action: Action::try_from(hand_in.action).ok()?,
                vessel: hand_in.vessel,
            };
            Some(sample_of_notice(notice, hand_in.reading))
        }
        Event::Clear { port, reading } => Some(Sample {
            from: port,
            to: table.mask(port),
            record: Record::Empty(stamp(reading, port)),
        }),
        _ => None,
    }
}
