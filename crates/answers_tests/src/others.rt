// The lines of the table, and of a refusal by reader or table, which ends the run.
use crate::lines::check_line;
use answers::line::Line;
use records::fault::{OutputFault, ReaderFault, TableFault};
use std::process::Abort;
use std::test::Fail;
use streams::part::{Part, Refusal};

fn check_refused(rt: &impl Abort, place: usize, part: Part, text: &[u8]) -> Result<(), Fail> {
    check_line(rt, Line::Refused(Refusal { place, part }), text)
}

#[test]
fn table_and_refusals(rt: HostRuntime) -> Result<(), Fail> {
    assert_eq!(rt; OutputFault::MemoryTooShort.number(), 26);
    check_line(&rt, Line::Table, b"0 T 0\n")?;
    check_refused(&rt, 0, Part::Table(TableFault::WrongCount), b"0 X 1\n")?;
    check_refused(&rt, 0, Part::Table(TableFault::WrongMask), b"0 X 2\n")?;
    check_refused(
        &rt,
        0,
        Part::Reader(ReaderFault::StreamTooLong),
        b"0 X 20\n",
    )?;
    check_refused(&rt, 0, Part::Reader(ReaderFault::LooseBytes), b"0 X 21\n")?;
    check_refused(&rt, 9, Part::Reader(ReaderFault::UnknownTag), b"9 X 22\n")?;
    check_refused(
        &rt,
        10,
        Part::Reader(ReaderFault::MisplacedTag),
        b"10 X 23\n",
    )?;
    check_refused(
        &rt,
        100,
        Part::Reader(ReaderFault::WrongLength),
        b"100 X 24\n",
    )?;
    check_refused(
        &rt,
        32765,
        Part::Reader(ReaderFault::MissingBytes),
        b"32765 X 25\n",
    )?;
    check_refused(
        &rt,
        18446744073709551615,
        Part::Reader(ReaderFault::LooseBytes),
        b"18446744073709551615 X 21\n",
    )
}
