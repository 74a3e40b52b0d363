// The desk: a book that is being written, or a sheet over the finished book.
ghost use Rattle.std.specs.Prelude.{◌≡◌, ℕ};
ghost use Rattle.register.specs.Faults as sheets;
ghost use Rattle.states.specs.States.{lent};
ghost use Rattle.protocol.specs.Faults.{told};
ghost use Rattle.protocol.specs.Conversation.{Line};
ghost use Rattle.protocol.specs.Desks.{stage, reply, noted, finished};
ghost use Rattle.protocol.specs.Stages.{writing, legs_of, Start, Entered, Timed};
ghost use Rattle.protocol.specs.declared.desk.Desk.TheVariants.{Timing};

use crate::fault::LineFault;
use crate::request::{Entry, Request};
use crate::sound::SoundSheet;
use crate::timing::Timing as Told;
use amounts::{Cents, Kilograms, Ranked};
use books::FormulaBook;
use charges::ChargeBook;
use frames::{Call, FrameFault};
use register::{Call as SheetCall, SheetFault};

// A book that is being written, or a sheet over the finished book. The first call for the sheet ends the writing.
#[derive(Drop)]
pub(crate) enum Desk {
    Draft(ChargeBook<FormulaBook>),
    Timing(SoundSheet),
}

// Writes an entry in a book, or refuses it and leaves the book as it stood.
fn enter(book: &mut ChargeBook<FormulaBook>, entry: Entry) -> Result<(), SheetFault>
    ensures { (n : ℕ) → Entered (writing (legs_of book.old) book.old.rates.values) entry (noted sheets.told n result) n (writing (legs_of book.new) book.new.rates.values) }
{
    match entry {
        Entry::Leg(leg) => Ok(book.add_leg(leg)?),
        Entry::Rate { leg, rate } => Ok(book.set_rate(leg, rate)?),
    }
}

impl Desk {
    // A book with no legs and every rate 0.
    pub(crate) fn new() -> Desk
        ensures { Start (stage result) }
    {
        Desk::Draft(ChargeBook::new(FormulaBook::new()))
    }

    // Ends the writing: the sheet over the book, blank if there was none before.
    fn finish(self) -> SoundSheet
        ensures { stage (Timing result) ≡ finished (stage self) }
    {
        match self {
            Desk::Draft(book) => SoundSheet::new(book),
            Desk::Timing(sheet) => sheet,
        }
    }

    // Writes an entry in the book, or refuses it and changes nothing; once the book is finished it comes too late.
    fn write(&mut self, entry: Entry) -> Result<(), LineFault>
        ensures { (n : ℕ) → Entered (stage self.old) entry (noted told n result) n (stage self.new) }
    {
        match self {
            Desk::Draft(book) => Ok(enter(book, entry)?),
            Desk::Timing(_) => Err(FrameFault::TooLate.into()),
        }
    }

    // Carries out a call on the sheet; the first one finishes the book.
    fn time(
        &mut self,
        call: SheetCall,
        minutes: &mut [u16],
        amounts: &mut [Ranked<Kilograms, Cents>],
    ) -> Result<Option<Told>, SheetFault>
        ensures { (n : ℕ) → Timed (lent minutes.old amounts.old) (stage self.old) call (reply sheets.told n result) n (stage self.new) }
    {
        match self {
            Desk::Draft(_) => {
                let mut sheet = std::mem::replace(self, Desk::new()).finish();
                let outcome = sheet.carry_out(call, minutes, amounts);
                *self = Desk::Timing(sheet);
                outcome
            }
            Desk::Timing(sheet) => sheet.carry_out(call, minutes, amounts),
        }
    }

    // Answers a line: reads it, and does what its call asks for. A refusal changes nothing but that a call for the sheet
    // finishes the book.
    pub(crate) fn answer(
        &mut self,
        line: &[u8],
        minutes: &mut [u16],
        amounts: &mut [Ranked<Kilograms, Cents>],
    ) -> Result<Option<Told>, LineFault>
        ensures { (n : ℕ) → Line (lent minutes.old amounts.old) (stage self.old) line.now (reply told n result) n (stage self.new) }
    {
        match Call::read(line)?.into() {
            Request::Write(entry) => {
                self.write(entry)?;
                Ok(None)
            }
            Request::Time(call) => Ok(self.time(call, minutes, amounts)?),
        }
    }
}
