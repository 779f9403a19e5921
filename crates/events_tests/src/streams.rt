// Where and by which number a stream is refused.
use events::event::Field;
use events::reader::Reader;
use records::reach::Reach;
use std::alloc::{AllocError, Global};
use std::test::Fail;

// The place at which the stream ends; or the place of the field that is refused, and the refusal's number.
fn verdict(stream: &[u8]) -> Result<usize, (usize, u8)> {
    let mut reader = Reader::new(stream);
    'fields: loop {
        let place = reader.place();
        match reader.next().map_err(|fault| (place, fault.number()))? {
            None => return Ok(place),
            Some(Field::Event(_)) => {}
            Some(Field::Table(masks)) => {
                Reach::new(masks).map_err(|fault| (place, fault.number()))?;
            }
        }
    }
}

#[test]
fn short_streams(rt: HostRuntime) {
    assert_eq!(rt; verdict(&[]), Err((0, 21)));
    assert_eq!(rt; verdict(&[16]), Err((0, 21)));
    assert_eq!(rt; verdict(&[16, 0]), Err((0, 21)));
    assert_eq!(rt; verdict(&[9, 9]), Err((0, 21)));
    assert_eq!(rt; verdict(&[16, 0, 2]), Err((0, 25)));
    assert_eq!(rt; verdict(&[16, 0, 2, 2]), Err((0, 25)));
    assert_eq!(rt; verdict(&[16, 0, 0]), Err((0, 1)));
    assert_eq!(rt; verdict(&[16, 0, 2, 2, 1]), Ok(5));
}

#[test]
fn loose_bytes(rt: HostRuntime) {
    assert_eq!(rt; verdict(&[16, 0, 2, 2, 1, 6]), Err((5, 21)));
    assert_eq!(rt; verdict(&[16, 0, 2, 2, 1, 6, 0]), Err((5, 21)));
    assert_eq!(rt; verdict(&[16, 0, 2, 2, 1, 6, 0, 1]), Err((5, 25)));
    assert_eq!(rt; verdict(&[16, 0, 2, 2, 1, 6, 0, 1, 0]), Ok(9));
    assert_eq!(rt; verdict(&[16, 0, 2, 2, 1, 6, 0, 1, 0, 99]), Err((9, 21)));
}

#[test]
fn tags(rt: HostRuntime) {
    assert_eq!(rt; verdict(&[16, 0, 2, 2, 1, 0, 0, 1, 0]), Err((5, 22)));
    assert_eq!(rt; verdict(&[16, 0, 2, 2, 1, 7, 0, 1, 0]), Err((5, 22)));
    assert_eq!(rt; verdict(&[16, 0, 2, 2, 1, 15, 0, 1, 0]), Err((5, 22)));
    assert_eq!(rt; verdict(&[16, 0, 2, 2, 1, 17, 0, 1, 0]), Err((5, 22)));
    assert_eq!(rt; verdict(&[16, 0, 2, 2, 1, 255, 0, 1, 0]), Err((5, 22)));
    // the first field must have tag 16, and an unknown tag is found first
    assert_eq!(rt; verdict(&[7, 0, 1, 0]), Err((0, 22)));
    assert_eq!(rt; verdict(&[6, 0, 1, 0]), Err((0, 23)));
    assert_eq!(rt; verdict(&[1, 0, 0]), Err((0, 23)));
    // a later field must not, whatever its length
    assert_eq!(rt; verdict(&[16, 0, 2, 2, 1, 16, 0, 2, 2, 1]), Err((5, 23)));
    assert_eq!(rt; verdict(&[16, 0, 2, 2, 1, 16, 255, 255]), Err((5, 23)));
}

#[test]
fn lengths_of_events(rt: HostRuntime) {
    assert_eq!(rt; verdict(&[16, 0, 2, 2, 1, 6, 0, 0]), Err((5, 24)));
    assert_eq!(rt; verdict(&[16, 0, 2, 2, 1, 6, 0, 2, 0, 0]), Err((5, 24)));
    assert_eq!(rt; verdict(&[16, 0, 2, 2, 1, 6, 1, 1, 0]), Err((5, 24)));
    assert_eq!(rt; verdict(&[16, 0, 2, 2, 1, 5, 0, 1, 0, 0]), Err((5, 24)));
    assert_eq!(rt; verdict(&[16, 0, 2, 2, 1, 4, 0, 3, 0, 0, 0]), Err((5, 24)));
    assert_eq!(rt;
        verdict(&[16, 0, 2, 2, 1, 3, 0, 4, 0, 0, 0, 0]),
        Err((5, 24))
    );
    assert_eq!(rt;
        verdict(&[16, 0, 2, 2, 1, 2, 0, 12, 0, 0, 0, 0, 0, 0, 0, 0, 0, 0, 0, 0]),
        Err((5, 24))
    );
    assert_eq!(rt;
        verdict(&[16, 0, 2, 2, 1, 1, 0, 11, 0, 0, 0, 0, 0, 0, 0, 0, 0, 0, 0]),
        Err((5, 24))
    );
    // a wrong length is found before missing bytes
    assert_eq!(rt; verdict(&[16, 0, 2, 2, 1, 6, 0, 2]), Err((5, 24)));
    assert_eq!(rt; verdict(&[16, 0, 2, 2, 1, 1, 255, 255]), Err((5, 24)));
}

#[test]
fn missing_bytes(rt: HostRuntime) {
    assert_eq!(rt;
        verdict(&[16, 0, 2, 2, 1, 1, 0, 12, 0, 0, 0, 0, 0, 0, 0, 0, 0, 0, 0]),
        Err((5, 25))
    );
    assert_eq!(rt;
        verdict(&[16, 0, 2, 2, 1, 1, 0, 12, 0, 0, 0, 0, 0, 0, 0, 0, 0, 0, 0, 0]),
        Ok(20)
    );
    assert_eq!(rt;
        verdict(&[16, 0, 2, 2, 1, 3, 0, 5, 0, 0, 0, 0]),
        Err((5, 25))
    );
    assert_eq!(rt; verdict(&[16, 0, 2, 2, 1, 3, 0, 5, 0, 0, 0, 0, 0]), Ok(13));
    // masks that are not there are missing before they are too many
    assert_eq!(rt; verdict(&[16, 0, 9, 0, 0, 0, 0, 0, 0, 0, 0]), Err((0, 25)));
    assert_eq!(rt;
        verdict(&[16, 0, 9, 0, 0, 0, 0, 0, 0, 0, 0, 0]),
        Err((0, 1))
    );
    assert_eq!(rt; verdict(&[16, 255, 255, 0]), Err((0, 25)));
    assert_eq!(rt; verdict(&[16, 0, 2, 3, 1]), Err((0, 2)));
}

// A table, `fetches` fields of five bytes, and fields of four bytes up to `len`.
fn long(heap: Global, fetches: usize, len: usize) -> Result<Vec<u8>, AllocError> {
    let mut stream = Vec::new(heap);
    stream.extend_from_slice(&[16, 0, 2, 2, 1])?;
    for _ in 0..fetches {
        stream.extend_from_slice(&[5, 0, 2, 1, 0])?;
    }
    for _ in 0..len / 4 {
        if stream.len() < len {
            stream.extend_from_slice(&[6, 0, 1, 0])?;
        }
    }
    Ok(stream)
}

#[test]
fn the_longest_stream(rt: HostRuntime) -> Result<(), Fail> {
    let longest = long(rt.alloc(), 3, 32768)?;
    assert_eq!(rt; longest.len(), 32768);
    assert_eq!(rt; verdict(longest.as_slice()), Ok(32768));
    let longer = long(rt.alloc(), 4, 32769)?;
    assert_eq!(rt; longer.len(), 32769);
    // refused before all else, at the first field
    assert_eq!(rt; verdict(longer.as_slice()), Err((0, 20)));
    let loose = vec![in rt.alloc(); 9; 32769]?;
    assert_eq!(rt; verdict(loose.as_slice()), Err((0, 20)));
    Ok(())
}

#[test]
fn stays_at_its_field(rt: HostRuntime) {
    let mut reader = Reader::new(&[16, 0, 2, 2, 1, 6, 0, 1, 0, 99]);
    assert!(rt; reader.next().is_ok());
    assert!(rt; reader.next().is_ok());
    assert_eq!(rt; reader.place(), 9);
    assert!(rt; reader.next().is_err());
    assert_eq!(rt; reader.place(), 9);
    assert!(rt; reader.next().is_err());
    assert_eq!(rt; reader.place(), 9);
    // the end is answered again too
    let mut ended = Reader::new(&[16, 0, 2, 2, 1]);
    assert!(rt; ended.next().is_ok());
    assert!(rt; ended.next().is_ok());
    assert!(rt; ended.next().is_ok());
    assert_eq!(rt; ended.place(), 5);
}
