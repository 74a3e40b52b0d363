// Carries out a call on a sheet's state: checks it, seeks a timing, and puts it on the sheet.
ghost use Rattle.std.specs.Prelude.{◌≡◌, IfOk, MatchOption, OnErr};
ghost use Rattle.register.specs.Register.{Times};
ghost use Rattle.register.specs.declared.areas.Areas.{Areas};
ghost use Rattle.register.specs.Replies.{timed, shut, reply};
ghost use Rattle.states.specs.States.{lent, Carried};
ghost use Rattle.register.specs.declared.call.Call.TheVariants.{Close};

use crate::standing::Standing;
use crate::state::State;
use books::Book;
use register::{Areas, Call, SheetFault};
use solver::solve;

impl State {
    // Answers any call but close as the register does: the cost of the timing that then stands, or the refusal.
    fn time<B: Book>(
        &mut self,
        book: &B,
        call: Call,
        minutes: &mut [u16],
        amounts: &mut [B::Cost],
    ) -> Result<B::Cost, SheetFault>
        requires { Times call }
        ensures carried { Carried (B.meaning book.now) B.Cost.Amount.le self.old call (lent minutes.old amounts.old) (timed B.Cost.Amount.row result) self.new }
        ensures unwritten { OnErr result ((self.new ≡ self.old) × (minutes.new ≡ minutes.old) × (amounts.new ≡ amounts.old)) }
    {
        book.keeps_laws();
        let areas = Areas {
            minutes: minutes.len(),
            amounts: amounts.len(),
        };
        self.admit(book, call, areas)?;
        let plan = self.planned(book, call);
        let found = solve(book, &plan, amounts)?;
        let standing = Standing { plan, found };
        let cost = standing.cost(book).unwrap();
        self.standing = Some(standing);
        Ok(cost)
    }

    // Answers a close as the register does: the sheet is blank after it, or was blank before.
    pub fn close<B: Book>(&mut self, book: &B) -> Result<(), SheetFault>
        ensures carried { (areas : Areas) → Carried (B.meaning book.now) B.Cost.Amount.le self.old Close areas (shut result) self.new }
        ensures unwritten { OnErr result (self.new ≡ self.old) }
    {
        let none = Areas {
            minutes: 0,
            amounts: 0,
        };
        self.admit(book, Call::Close, none)?;
        self.standing = None;
        Ok(())
    }

    // Carries out any call: the cost of the timing that then stands, nothing for a close, or the refusal.
    pub fn call<B: Book>(
        &mut self,
        book: &B,
        call: Call,
        minutes: &mut [u16],
        amounts: &mut [B::Cost],
    ) -> Result<Option<B::Cost>, SheetFault>
        ensures carried { Carried (B.meaning book.now) B.Cost.Amount.le self.old call (lent minutes.old amounts.old) (reply B.Cost.Amount.row result) self.new }
        ensures unwritten { OnErr result ((self.new ≡ self.old) × (minutes.new ≡ minutes.old) × (amounts.new ≡ amounts.old)) }
        ensures costs { IfOk result (λ cost. MatchOption cost (Times call → ⊥) (λ _. Times call)) }
    {
        if let Call::Close = call {
            self.close(book)?;
            return Ok(None);
        }
        let cost = self.time(book, call, minutes, amounts)?;
        Ok(Some(cost))
    }
}
