// The plain state of a sheet, and the checks of a call against it.
ghost use Rattle.std.specs.Prelude.{◌≡◌, MatchResult};
ghost use Rattle.amounts.specs.Orders.{Tells};
ghost use Rattle.board.specs.Rules.{Clear, Broken};
ghost use Rattle.solver.specs.Plans.{settings};
ghost use Rattle.register.specs.Faults.{told};
ghost use Rattle.register.specs.Register.{Elsewhere, Cramped, held, after, blank, entry_rows};
ghost use Rattle.states.specs.States.{reading};
ghost use Rattle.books.specs.Meaning.{Meaning};

use crate::plans::{FREE, opened_plan, set_bounds, set_window};
use crate::rows::{crossed, elsewhere, opens, outside, times, too_large};
use crate::standing::Standing;
use books::{Book, Ends};
use register::{Areas, Call, SheetFault};
use solver::Plan;

// What a sheet holds beside its book: what stands on it, or nothing.
#[derive(Clone, Copy)]
pub struct State {
    pub standing: Option<Standing>,
}

impl State {
    // A blank state.
    pub fn new() -> State
        ensures { reading result ≡ blank }
    {
        State { standing: None }
    }

    // The settings that the state holds; those of an open with total 0 if it is blank.
    fn held<B: Book>(&self, book: &B) -> Plan
        ensures { settings result ≡ held (B.meaning book.now) (reading self.now) }
    {
        match &self.standing {
            Some(standing) => standing.plan,
            None => opened_plan(book, 0),
        }
    }

    // The plan that a call leaves: it sets what the call names, and every other setting stays.
    pub(crate) fn planned<B: Book>(&self, book: &B, call: Call) -> Plan
        requires { Elsewhere (B.meaning book.now) call → ⊥ }
        ensures { settings result ≡ after (B.meaning book.now) (reading self.now) call }
    {
        book.keeps_laws();
        match call {
            Call::Open { total } => opened_plan(book, total),
            Call::Bounds { leg, low, high } => {
                set_bounds(self.held(book), leg as usize, Ends { lo: low, hi: high })
            }
            Call::Window { stop, low, high } => {
                set_window(self.held(book), stop as usize, Ends { lo: low, hi: high })
            }
            Call::Lift { stop } => set_window(self.held(book), stop as usize, FREE),
            Call::Total { total } => Plan {
                total,
                ..self.held(book)
            },
            Call::Close => self.held(book),
        }
    }

    // The total after a call.
    fn total_after(&self, call: Call) -> u16
        ensures { (b : Meaning) → result ≡ (after b (reading self.now) call).total }
    {
        match call {
            Call::Open { total } | Call::Total { total } => total,
            _ => self
                .standing
                .as_ref()
                .map_or(0, |standing| standing.plan.total),
        }
    }

    // Row 15: a work area too short for the legs and the total after the call.
    fn cramped<B: Book>(&self, book: &B, call: Call, areas: Areas) -> bool
        ensures { Tells result (Cramped (B.meaning book.now) (reading self.now) call areas) }
    {
        book.keeps_laws();
        let room = self.total_after(call) as usize + 1;
        times(call) && (areas.minutes < book.legs() * room || areas.amounts < 2 * room)
    }

    // Goes down the rows that come before the question whether there is a timing.
    pub(crate) fn admit<B: Book>(
        &self,
        book: &B,
        call: Call,
        areas: Areas,
    ) -> Result<(), SheetFault>
        ensures { MatchResult result (λ _. Clear (entry_rows (B.meaning book.now) (reading self.now) call areas)) (λ f. Broken (entry_rows (B.meaning book.now) (reading self.now) call areas) (told f)) }
    {
        let leg = call.leg();
        let stands = self.standing.is_some();
        if stands && opens(call) {
            return Err(SheetFault::Standing { leg });
        }
        if !stands && !opens(call) {
            return Err(SheetFault::Blank { leg });
        }
        if elsewhere(book, call) {
            return Err(SheetFault::NoSuchLeg { leg });
        }
        if crossed(call) {
            return Err(SheetFault::Crossed { leg });
        }
        if too_large(call) {
            return Err(SheetFault::TooLarge { leg });
        }
        if outside(book, call) {
            return Err(SheetFault::OutsideEnds { leg });
        }
        if self.cramped(book, call, areas) {
            return Err(SheetFault::ShortArea { leg });
        }
        Ok(())
    }
}
