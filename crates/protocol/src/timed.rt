// A call on the sheet, and the timing that then stands.
ghost use Rattle.std.specs.Prelude.{◌≡◌, ℕ, ◌+◌, ◌<◌, slice_index};
ghost use Rattle.arrayvec.specs.ArrayVec.{array_vec_len};
ghost use Rattle.register.specs.Faults.{told};
ghost use Rattle.register.specs.Register.{Stands};
ghost use Rattle.states.specs.States.{reading, minutes_of, lent};
ghost use Rattle.protocol.specs.Desks.{reply, Stated};
ghost use Rattle.protocol.specs.Stages.{book as priced, legs_of};

use crate::sound::SoundSheet;
use crate::timing::Timing;
use amounts::{Cents, Kilograms, Ranked};
use arrayvec::ArrayVec;
use register::{Call, SheetFault};

impl SoundSheet {
    // The minutes that stand, leg 1 first; none on a blank sheet.
    fn flown(&self) -> ArrayVec<u16, 64>
        ensures legs { Stands (reading self.now.sheet.state) → array_vec_len result ≡ (legs_of self.now.sheet.book).legs }
        ensures minutes { (k : ℕ) → k < array_vec_len result → slice_index result.items k ≡ minutes_of self.now.sheet.state (k + 1) }
    {
        ArrayVec::try_from(self.sheet.timing().unwrap_or(&[])).unwrap()
    }

    // Carries out a call: the timing that then stands with its cost, nothing for a close, or the refusal.
    pub(crate) fn carry_out(
        &mut self,
        call: Call,
        minutes: &mut [u16],
        amounts: &mut [Ranked<Kilograms, Cents>],
    ) -> Result<Option<Timing>, SheetFault>
        ensures over { self.new.sheet.book ≡ self.old.sheet.book }
        ensures stated { Stated (priced (legs_of self.old.sheet.book) self.old.sheet.book.rates.values) (lent minutes.old amounts.old) self.old.sheet.state call (λ n. reply told n result) self.new.sheet.state }
    {
        let Some(cost) = self.sheet.call(call, minutes, amounts)? else {
            return Ok(None);
        };
        Ok(Some(Timing {
            minutes: self.flown(),
            kilograms: cost.first.value(),
            cents: cost.second.value(),
        }))
    }
}
