// A page: lines, one behind the other.
ghost use Rattle.answers.specs.Lines.{line_text};
ghost use Rattle.pages.specs.Pages.{answers_text, end_text, run_text};
ghost use Rattle.answers.specs.declared.line.Line.TheVariants.{Refused};
ghost use Rattle.std.specs.Prelude.{◌≡◌, [], ◌++◌, IfOk, MatchResult, OnOk};

use answers::answer::Answered;
use answers::line::{LONGEST_LINE, Line};
use std::alloc::{AllocError, Global};
use streams::part::{Refusal, StreamFault};

// Adds a line behind the page, which stays as it was where memory is wanting.
fn add(page: &mut Vec<u8>, line: Line) -> Result<(), AllocError>
    ensures { MatchResult result (λ _. page.new.items ≡ page.old.items ++ line_text line) (λ _. page.new.items ≡ page.old.items) }
{
    let mut text = [0u8; LONGEST_LINE];
    let len = line.write(&mut text).unwrap();
    page.extend_from_slice(&text[..len])
}

// Adds the line of what ended a run, where that has one.
fn add_end(page: &mut Vec<u8>, end: Result<(), StreamFault>) -> Result<(), AllocError>
    ensures { OnOk result (page.new.items ≡ page.old.items ++ end_text end) }
{
    match end {
        Err(StreamFault::Refused(refusal)) => add(page, Line::Refused(refusal)),
        Ok(()) | Err(StreamFault::NoMemory { .. }) => Ok(()),
    }
}

// The page of a stream whose first field was refused.
pub fn refusal_page(heap: Global, refusal: Refusal) -> Result<Vec<u8>, AllocError>
    ensures { IfOk result (λ page. page.items ≡ line_text (Refused refusal)) }
{
    let mut page = Vec::new(heap);
    add(&mut page, Line::Refused(refusal))?;
    Ok(page)
}

// The page of a stream that was run: the table's line, a line for each answer, and that of the refusal which ended the run.
#[tactic(auto, using(crate::proofs::Paging::lines_more))]
pub fn run_page(
    heap: Global,
    answers: &[Answered],
    end: Result<(), StreamFault>,
) -> Result<Vec<u8>, AllocError>
    ensures { IfOk result (λ page. page.items ≡ run_text answers.now end) }
{
    let mut page = Vec::new(heap);
    add(&mut page, Line::Table)?;
    for answered in answers {
        add(&mut page, Line::Event(*answered))?;
    }
    add_end(&mut page, end)?;
    Ok(page)
}
