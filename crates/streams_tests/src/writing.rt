// The longest writing, read back; both sides of the writer's limit.
use events::event::Event;
use events::writer::write;
use records::reach::Reach;
use std::alloc::{AllocError, Global};
use std::test::Fail;
use streams::stream::read_stream;

// How many bytes are written, or the refusal's number.
fn written(events: &[Event], out: &mut [u8]) -> Result<usize, u8> {
    let table = Reach::new(&[2, 1]).map_err(|fault| fault.number())?;
    write(&table, events, out).map_err(|fault| fault.number())
}

// So many releases, and then so many fetches.
fn many(heap: Global, releases: usize, fetches: usize) -> Result<Vec<Event>, AllocError> {
    let mut events = Vec::new(heap);
    for _ in 0..releases {
        events.push(Event::Release { port: 1 })?;
    }
    for _ in 0..fetches {
        events.push(Event::Fetch { port: 1, source: 0 })?;
    }
    Ok(events)
}

#[test]
fn the_longest_writing(rt: HostRuntime) -> Result<(), Fail> {
    let mut out = vec![in rt.alloc(); 7; 32769]?;
    // 5 + 4 * 8187 + 5 * 3 = 32768 bytes
    let longest = many(rt.alloc(), 8187, 3)?;
    assert_eq!(rt; written(longest.as_slice(), &mut out), Ok(32768));
    assert!(rt; out.len() == 32769);
    assert_eq!(rt; out[32768], 7);
    assert_eq!(rt; out[32767], 0);
    let stream = read_stream(rt.alloc(), &out[0..32768])?;
    assert_eq!(rt; stream.events.len(), 8190);
    // 5 + 4 * 8186 + 5 * 4 = 32769 bytes: the memory is long enough, the stream is not
    let longer = many(rt.alloc(), 8186, 4)?;
    assert_eq!(rt; written(longer.as_slice(), &mut out), Err(20));
    // too long comes before too short
    assert_eq!(rt; written(longer.as_slice(), &mut []), Err(20));
    assert_eq!(rt; written(longest.as_slice(), &mut out[0..32767]), Err(26));
    Ok(())
}
