// Any list of calls on a new sheet, and the whole promise of it.
ghost use Rattle.std.specs.Prelude.{◌≡◌, map, length, take, drop, IfOk};
ghost use Rattle.register.specs.Register.{Run, blank};
ghost use Rattle.register.specs.Replies.{reply};
ghost use Rattle.sheet.specs.Calls.{Called};
ghost use Rattle.sheet.specs.Runs.{fed, OneAnswer};
ghost use Rattle.states.specs.States.{reading, lent, Sound};

use crate::sheet::Sheet;
use books::Book;
use register::{Areas, Call, SheetFault};
use std::alloc::{AllocError, Global};

// A call, and how many places of the two work areas it is handed.
#[derive(Clone, Copy, PartialEq, Eq, Debug)]
pub struct Asked {
    pub call: Call,
    pub areas: Areas,
}

impl<B: Book> Sheet<B> {
    // Carries out any call: the cost of the timing that then stands, nothing for a close, or the refusal.
    pub fn call(
        &mut self,
        call: Call,
        minutes: &mut [u16],
        amounts: &mut [B::Cost],
    ) -> Result<Option<B::Cost>, SheetFault>
        ensures { Called B.meaning B.Cost.Amount.le (reply B.Cost.Amount.row) self.old self.new call minutes.old minutes.new amounts.old amounts.new result }
    {
        self.state.call(&self.book, call, minutes, amounts)
    }
}

// Makes a blank sheet over a book and carries out a list of calls on it, each with as many places of the two areas as it asks
// for, as far as the areas reach. Each answer goes into its place of `answers`: a call that has no place there is not made, and a
// place that no call has is left as it was.
pub fn run_into<B: Book>(
    book: B,
    calls: &[Asked],
    minutes: &mut [u16],
    amounts: &mut [B::Cost],
    answers: &mut [Result<Option<B::Cost>, SheetFault>],
) -> Sheet<B>
    ensures register { Run (B.meaning book) B.Cost.Amount.le blank (fed (lent minutes.old amounts.old) (take (length answers.old) calls.now)) (map (reply B.Cost.Amount.row) (take (length calls.now) answers.new)) (reading result.state) }
    ensures rest { drop (length calls.now) answers.new ≡ drop (length calls.now) answers.old }
    ensures sound { Sound (B.meaning book) B.Cost.Amount.le result.state }
    ensures over { result.book ≡ book }
    ensures one { OneAnswer (B.meaning book) B.Cost.Amount.le B.Cost.Amount.places }
{
    let mut sheet = Sheet::new(book);
    // with the index of a call: after `iter_mut` and `zip` nothing is known of the answers
    for (k, answer) in answers.iter_mut().enumerate() {
        let Some(asked) = calls.get(k) else {
            break;
        };
        let m = asked.areas.minutes.min(minutes.len());
        let a = asked.areas.amounts.min(amounts.len());
        *answer = sheet.call(asked.call, &mut minutes[..m], &mut amounts[..a]);
    }
    sheet
}

// Makes a blank sheet over a book and carries out any list of calls on it, each with as many places of the two areas as it
// asks for, as far as the areas reach. It gives the sheet and the answers, one for each call; it fails only for want of memory
// for the answers, before the first call.
pub fn run<B: Book + Drop>(
    heap: Global,
    book: B,
    calls: &[Asked],
    minutes: &mut [u16],
    amounts: &mut [B::Cost],
) -> Result<(Sheet<B>, Vec<Result<Option<B::Cost>, SheetFault>>), AllocError>
    ensures register { IfOk result (λ out. Run (B.meaning book) B.Cost.Amount.le blank (fed (lent minutes.old amounts.old) calls.now) (map (reply B.Cost.Amount.row) out.1.items) (reading out.0.state)) }
    ensures sound { IfOk result (λ out. Sound (B.meaning book) B.Cost.Amount.le out.0.state) }
    ensures over { IfOk result (λ out. out.0.book ≡ book) }
    ensures one { OneAnswer (B.meaning book) B.Cost.Amount.le B.Cost.Amount.places }
{
    let mut answers = vec![in heap; Ok(None); calls.len()]?;
    let sheet = run_into(book, calls, minutes, amounts, &mut answers);
    Ok((sheet, answers))
}
