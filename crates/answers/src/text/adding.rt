// Bytes and numbers, added behind a text.
ghost use Rattle.std.specs.Prelude.{◌≡◌, ◌+◌, ◌<◌, ◌≤◌, [], ◌∷◌, length, decimal};
ghost use Rattle.answers.specs.Answers.{item};
ghost use Rattle.answers.specs.Texts.{text_of, Added};

use super::Text;
use arrayvec::ArrayVec;

impl Text {
    pub(crate) fn new() -> Text
        ensures { text_of result ≡ [] }
    {
        Text {
            bytes: ArrayVec::new(),
        }
    }

    pub(crate) fn add_byte(&mut self, byte: u8)
        requires { length (text_of self.old) < 191 }
        ensures { Added self.old self.new (byte ∷ []) }
    {
        self.bytes.push(byte);
    }

    // Adds the number in decimal, without leading zeros.
    pub(crate) fn add_number(&mut self, n: usize)
        requires { length (text_of self.old) + 20 ≤ 191 }
        ensures added { Added self.old self.new (decimal n) }
        ensures short { length (text_of self.new) ≤ length (text_of self.old) + 20 }
    {
        let mut digits = itoa::Buffer::new();
        let digits = digits.format(n).as_bytes();
        self.bytes.try_extend_from_slice(digits).unwrap();
    }

    // Adds the number behind a mark.
    pub(crate) fn add_item(&mut self, mark: u8, n: usize)
        requires { length (text_of self.old) + 21 ≤ 191 }
        ensures added { Added self.old self.new (item mark n) }
        ensures short { length (text_of self.new) ≤ length (text_of self.old) + 21 }
    {
        self.add_byte(mark);
        self.add_number(n);
    }
}
