// The line that is printed of a field.
ghost use Rattle.std.specs.Prelude.{◌≡◌, ◌≤◌, length, MatchResult};
ghost use Rattle.answers.specs.Lines.{head_text, body_text, line_text};
ghost use Rattle.answers.specs.Texts.{text_of, Printed, NoRoom};

use crate::answer::Answered;
use crate::text::Text;
use records::fault::OutputFault;
use streams::part::Refusal;

// No line is longer, in bytes.
pub const LONGEST_LINE: usize = 191;

#[derive(Clone, Copy, PartialEq, Eq, Debug)]
pub enum Line {
    // the first field made a table; it stands at place 0
    Table,
    Event(Answered),
    // a refusal by reader or table, which ends the run
    Refused(Refusal),
}

// A line's text as far as its letter, which is a byte of the text.
fn head(place: usize, letter: u8) -> Text
    ensures text { text_of result ≡ head_text place letter }
    ensures short { length (text_of result) ≤ 22 }
{
    let mut text = Text::new();
    text.add_number(place);
    text.add_byte(b' ');
    text.add_byte(letter);
    text
}

impl Line {
    // The line's text before its line feed.
    fn body(self) -> Text
        ensures text { text_of result ≡ body_text self }
        ensures short { length (text_of result) ≤ 190 }
    {
        match self {
            Line::Table => {
                let mut text = head(0, b'T');
                text.add_item(b' ', 0);
                text
            }
            Line::Event(answered) => {
                let mut text = head(answered.place, answered.event.letter() as u8);
                text.add_result(answered.answer);
                text
            }
            Line::Refused(refusal) => {
                let mut text = head(refusal.place, b'X');
                text.add_item(b' ', refusal.part.number() as usize);
                text
            }
        }
    }

    // Writes the line to the front of the memory and answers how many bytes it has; where the memory is too short, it is
    // left as it was.
    pub fn write(self, out: &mut [u8]) -> Result<usize, OutputFault>
        ensures short { length (line_text self) ≤ 191 }
        ensures printed { MatchResult result (λ n. Printed (line_text self) out.old out.new n) (λ f. NoRoom (line_text self) out.old out.new f) }
    {
        let mut text = self.body();
        text.add_byte(b'\n');
        text.print(out)
    }
}
