// The tags of fields.
ghost use Rattle.events.specs.Fields.{size_of};
ghost use Rattle.events.specs.Tags.{number_of, Decodes};
ghost use Rattle.std.specs.Prelude.{◌≡◌};

use records::fault::ReaderFault;

// What a field is, with the number that stands for it in a stream.
#[derive(Clone, Copy, PartialEq, Eq, Debug)]
pub(crate) enum Tag {
    HandIn = 1,
    Decide = 2,
    Clear = 3,
    Bring = 4,
    Fetch = 5,
    Release = 6,
    // the first field, which holds the masks of the reach table
    Table = 16,
}

impl TryFrom<u8> for Tag {
    type Error = ReaderFault;

    ghost try_from_gives = { Decodes };

    fn try_from(number: u8) -> Result<Tag, ReaderFault> {
        match number {
            1 => Ok(Tag::HandIn),
            2 => Ok(Tag::Decide),
            3 => Ok(Tag::Clear),
            4 => Ok(Tag::Bring),
            5 => Ok(Tag::Fetch),
            6 => Ok(Tag::Release),
            16 => Ok(Tag::Table),
            _ => Err(ReaderFault::UnknownTag),
        }
    }
}

impl Tag {
    // How many bytes the value of an event has; a table's are as many as its masks.
    pub(crate) fn size(self) -> Option<usize>
        ensures { result ≡ size_of (number_of self) }
    {
        match self {
            Tag::HandIn => Some(12),
            Tag::Decide => Some(11),
            Tag::Clear => Some(5),
            Tag::Bring => Some(2),
            Tag::Fetch => Some(2),
            Tag::Release => Some(1),
            Tag::Table => None,
        }
    }
}
