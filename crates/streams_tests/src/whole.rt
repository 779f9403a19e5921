// Where and why a whole stream is not read.
use records::fault::{ReaderFault, TableFault};
use std::alloc::Global;
use streams::part::{Part, Refusal, StreamFault};
use streams::stream::read_stream;

// Where and why the stream is not read.
fn fault(heap: Global, stream: &[u8]) -> Option<StreamFault> {
    read_stream(heap, stream).err()
}

fn refused(place: usize, part: Part) -> Option<StreamFault> {
    Some(StreamFault::Refused(Refusal { place, part }))
}

#[test]
fn the_first_fault(rt: HostRuntime) {
    assert_eq!(rt; fault(rt.alloc(), &[16, 0, 2, 2, 1]), None);
    let cut = Part::Reader(ReaderFault::LooseBytes);
    assert_eq!(rt; fault(rt.alloc(), &[]), refused(0, cut));
    let own = Part::Table(TableFault::WrongMask);
    assert_eq!(rt; fault(rt.alloc(), &[16, 0, 2, 1, 1, 99]), refused(0, own));
    let unknown = Part::Reader(ReaderFault::UnknownTag);
    assert_eq!(rt;
        fault(rt.alloc(), &[16, 0, 2, 2, 1, 6, 0, 1, 0, 7, 0, 0, 1]),
        refused(9, unknown)
    );
    assert_eq!(rt; cut.number(), 21);
    assert_eq!(rt; own.number(), 2);
}
