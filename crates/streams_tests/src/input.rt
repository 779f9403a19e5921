// How much of an input is read: all of it, up to one byte beyond the longest stream.
use std::io;
use streams::input::read_input;

#[test]
fn what_is_read_of_an_input(rt: HostRuntime) -> io::Result<()> {
    let bytes = [7u8; 32771];
    for (given, read) in [
        (0, 0),
        (5, 5),
        (32768, 32768),
        (32769, 32769),
        (32771, 32769),
    ] {
        let stream = read_input(rt.alloc(), &bytes[..given])?;
        assert_eq!(rt; stream.len(), read);
        assert_eq!(rt; stream.as_slice(), &bytes[..read]);
    }
    Ok(())
}
