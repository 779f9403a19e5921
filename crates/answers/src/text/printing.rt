// A text, copied to the front of a memory.
ghost use Rattle.answers.specs.Texts.{text_of, Printed, NoRoom};
ghost use Rattle.std.specs.Result.{MatchResult};

use super::Text;
use records::fault::OutputFault;

impl Text {
    pub(crate) fn print(&self, out: &mut [u8]) -> Result<usize, OutputFault>
        ensures { MatchResult result (λ n. Printed (text_of self.now) out.old out.new n) (λ f. NoRoom (text_of self.now) out.old out.new f) }
    {
        let len = self.bytes.len();
        if out.len() < len {
            return Err(OutputFault::MemoryTooShort);
        }
        out[..len].copy_from_slice(&self.bytes);
        Ok(len)
    }
}
