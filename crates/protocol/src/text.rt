// A whole text of calls, and the text that answers it.
ghost use Rattle.std.specs.Prelude.{◌≡◌, ◌+◌, ◌*◌, ◌≤◌, true, length, take, IfOk, is_ok, vec_len, vec_capacity};
ghost use Rattle.answers.specs.Meaning.{meant};
ghost use Rattle.lines.specs.Lines.{lines_of};
ghost use Rattle.states.specs.States.{lent};
ghost use Rattle.protocol.specs.Conversation.{Conversation, Says};
ghost use Rattle.protocol.specs.Desks.{reply};
ghost use Rattle.protocol.specs.Faults.{told};

use crate::desk::Desk;
use crate::fault::LineFault;
use crate::timing::Timing;
use amounts::{Cents, Kilograms, Ranked};
use answers::Answer;
use board::Refusal;
use lines::{LIMIT, Lines, start_of};
use std::alloc::{AllocError, Global};

// The answer that tells the result of the line with this number. It is no `From`, since the number goes with the result.
fn answer_of<'a>(number: u16, outcome: &'a Result<Option<Timing>, LineFault>) -> Answer<'a>
    ensures { meant result ≡ reply told number outcome.now }
{
    match outcome {
        Ok(None) => Answer::Done,
        Ok(Some(timing)) => Answer::Timing {
            minutes: &timing.minutes,
            kilograms: timing.kilograms,
            cents: timing.cents,
        },
        Err(fault) => Answer::Refused {
            refusal: Refusal::from(*fault),
            line: number,
        },
    }
}

// Appends the answers to the lines in the first 65,535 characters of a text, each one line, with these work areas for the
// sheet. It fails only for want of memory, and never where there is room for 293 characters a line, the longest answer.
pub fn answer_into(
    text: &[u8],
    minutes: &mut [u16],
    amounts: &mut [Ranked<Kilograms, Cents>],
    out: &mut Vec<u8>,
) -> Result<(), AllocError>
    ensures answers { Says (lent minutes.old amounts.old) (lines_of (take 65535 text.now)) out.old.items result out.new.items }
    ensures room { vec_len out.old + 293 * length (lines_of (take 65535 text.now)) ≤ vec_capacity out.old → is_ok result ≡ true }
{
    let mut desk = Desk::new();
    for (index, line) in Lines::new(start_of(text, LIMIT)).enumerate() {
        let outcome = desk.answer(line, minutes, amounts);
        answer_of(index as u16 + 1, &outcome).write(out)?;
    }
    Ok(())
}

// The answers to the lines in the first 65,535 characters of a text, each one line, with these work areas for the sheet. It
// fails only for want of memory.
pub fn answer_text(
    heap: Global,
    text: &[u8],
    minutes: &mut [u16],
    amounts: &mut [Ranked<Kilograms, Cents>],
) -> Result<Vec<u8>, AllocError>
    ensures { IfOk result (λ out. Conversation (lent minutes.old amounts.old) (lines_of (take 65535 text.now)) out.items) }
{
    let mut out = Vec::new(heap);
    answer_into(text, minutes, amounts, &mut out)?;
    Ok(out)
}
