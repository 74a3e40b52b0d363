// What the reader says of a text, in words.
ghost use Rattle.std.specs.Prelude.{◌≡◌, take, IfOk, string_bytes};
ghost use Rattle.lines.specs.Lines.{lines_of};
ghost use Rattle.frame_reader.specs.Words.{Reports, Says};

use board::Refusal;
use frames::Call;
use lines::{LIMIT, Lines, start_of};
use std::alloc::{AllocError, Global};

// The answer to a line in words, with the line's number. It is no `Display`: a line with its number is no type.
fn line_words(heap: Global, number: usize, line: &[u8]) -> Result<String, AllocError>
    ensures { IfOk result (λ words. Says number line.now (string_bytes words)) }
{
    match Call::read(line) {
        Ok(call) => format!(in heap; "line {number}: {call}"),
        Err(fault) => {
            let refusal = Refusal::from(fault).number;
            format!(in heap; "line {number}: refused ({refusal}): {fault}")
        }
    }
}

// What is said of every line of a text, in order; lines are counted from 1.
pub fn report(heap: Global, text: &[u8]) -> Result<String, AllocError>
    ensures { IfOk result (λ all. Reports 1 (lines_of text.now) (string_bytes all)) }
{
    let mut all = String::new(heap);
    for (index, line) in Lines::new(text).enumerate() {
        let words = line_words(heap, index + 1, line)?;
        all.push_str(words.as_str())?;
        all.push('\n')?;
    }
    Ok(all)
}

// What is said of every line in the first 65,535 characters of a text, as `report` says it.
pub fn report_start(heap: Global, text: &[u8]) -> Result<String, AllocError>
    ensures { IfOk result (λ all. Reports 1 (lines_of (take 65535 text.now)) (string_bytes all)) }
{
    report(heap, start_of(text, LIMIT))
}
