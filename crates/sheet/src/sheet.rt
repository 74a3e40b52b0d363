// The sheet of a rotation over a book: its calls and its questions.
ghost use Rattle.std.specs.Prelude.{◌≡◌, ℕ, ◌+◌, ◌<◌, length, slice_index, IfErr, MatchOption, OnErr, ◌≢◌};
ghost use Rattle.books.specs.Meaning.{IsLeg};
ghost use Rattle.optimum.specs.Rotation.{cost_of_timing};
ghost use Rattle.solver.specs.Plans.{at, price_at};
ghost use Rattle.register.specs.Faults.{told};
ghost use Rattle.register.specs.Register.{Stands, Times, blank};
ghost use Rattle.register.specs.declared.areas.Areas.{Areas};
ghost use Rattle.register.specs.Replies.{timed, shut};
ghost use Rattle.sheet.specs.Calls.{Called};
ghost use Rattle.states.specs.States.{reading, minutes_of, prices_of, Sound, Carried};
ghost use Rattle.register.specs.declared.call.Call.TheVariants.{Open, Bounds, Window, Lift, Total, Close};

use books::Book;
use optimum::Price;
use register::{Call, SheetFault};
use solver::Solution;
use states::State;

// A sheet: blank, or standing with settings (a total, the bounds of every leg, the window of every stop), one timing that
// is cheapest for them, and one price for each leg. It is made over one book, which it keeps unchanged.
// That it is sound for its book stands in the contracts: as a ghost field it would have to be a fact with one proof at most, which
// no kind of amount promises of its order.
#[derive(Drop)]
pub struct Sheet<B: Book> {
    pub(crate) book: B,
    pub(crate) state: State,
}

impl<B: Book> Sheet<B> {
    // A blank sheet over a book.
    pub fn new(book: B) -> Sheet<B>
        ensures over { result.book ≡ book }
        ensures blank { reading result.state ≡ blank }
        ensures sound { Sound (B.meaning book) B.Cost.Amount.le result.state }
    {
        let state = State::new();
        Sheet { book, state }
    }

    // The five calls that put a timing on the sheet are alike but for the call they make: each has numbers of its own, as they come,
    // in order or not, and `timed` is what they share. The work areas are two slices, and no struct of both: handing on parts of one, as `run_into`
    // does, is not covered by the borrow checker.

    // Opens the sheet: this total, the book's ends as bounds, every window 0 to 4,095.
    pub fn open(
        &mut self,
        total: u16,
        minutes: &mut [u16],
        amounts: &mut [B::Cost],
    ) -> Result<B::Cost, SheetFault>
        ensures { Called B.meaning B.Cost.Amount.le (timed B.Cost.Amount.row) self.old self.new (Open total) minutes.old minutes.new amounts.old amounts.new result }
    {
        self.timed(Call::Open { total }, minutes, amounts)
    }

    // Sets the bounds of a leg.
    pub fn bounds(
        &mut self,
        leg: u8,
        low: u16,
        high: u16,
        minutes: &mut [u16],
        amounts: &mut [B::Cost],
    ) -> Result<B::Cost, SheetFault>
        ensures { Called B.meaning B.Cost.Amount.le (timed B.Cost.Amount.row) self.old self.new (Bounds leg low high) minutes.old minutes.new amounts.old amounts.new result }
    {
        self.timed(Call::Bounds { leg, low, high }, minutes, amounts)
    }

    // Sets the window of a stop.
    pub fn window(
        &mut self,
        stop: u8,
        low: u16,
        high: u16,
        minutes: &mut [u16],
        amounts: &mut [B::Cost],
    ) -> Result<B::Cost, SheetFault>
        ensures { Called B.meaning B.Cost.Amount.le (timed B.Cost.Amount.row) self.old self.new (Window stop low high) minutes.old minutes.new amounts.old amounts.new result }
    {
        self.timed(Call::Window { stop, low, high }, minutes, amounts)
    }

    // Sets the window of a stop back to 0 to 4,095. That always leaves a timing.
    pub fn lift(
        &mut self,
        stop: u8,
        minutes: &mut [u16],
        amounts: &mut [B::Cost],
    ) -> Result<B::Cost, SheetFault>
        ensures called { Called B.meaning B.Cost.Amount.le (timed B.Cost.Amount.row) self.old self.new (Lift stop) minutes.old minutes.new amounts.old amounts.new result }
        ensures stays { Sound (B.meaning self.old.book) B.Cost.Amount.le self.old.state → IfErr result (λ f. (told f).number ≢ 16) }
    {
        self.timed(Call::Lift { stop }, minutes, amounts)
    }

    // Sets the total.
    pub fn total(
        &mut self,
        total: u16,
        minutes: &mut [u16],
        amounts: &mut [B::Cost],
    ) -> Result<B::Cost, SheetFault>
        ensures { Called B.meaning B.Cost.Amount.le (timed B.Cost.Amount.row) self.old self.new (Total total) minutes.old minutes.new amounts.old amounts.new result }
    {
        self.timed(Call::Total { total }, minutes, amounts)
    }

    // Makes the sheet blank.
    pub fn close(&mut self) -> Result<(), SheetFault>
        ensures carried { (areas : Areas) → Carried (B.meaning self.old.book) B.Cost.Amount.le self.old.state Close areas (shut result) self.new.state }
        ensures over { self.new.book ≡ self.old.book }
        ensures unwritten { OnErr result (self.new.state ≡ self.old.state) }
    {
        self.state.close(&self.book)
    }

    // The questions take what may be absent apart by `let .. else`, as everywhere at the sheet: what is absent and why stands in
    // a line of its own. `minutes` and `price` read one field each of what `place` answers.

    // The minutes of the legs 1 to n, leg 1 first; absent on a blank sheet.
    pub fn timing(&self) -> Option<&[u16]>
        ensures { MatchOption result (Stands (reading self.now.state) → ⊥) (λ ms. Stands (reading self.now.state) × (length ms.now ≡ (B.meaning self.now.book).legs) × ((k : ℕ) → k < (B.meaning self.now.book).legs → slice_index ms.now k ≡ minutes_of self.now.state (k + 1))) }
    {
        let Some(standing) = &self.state.standing else {
            return None;
        };
        Some(standing.timing(&self.book))
    }

    // The minutes of a leg; absent on a blank sheet or for a leg that is not there.
    pub fn minutes(&self, leg: u8) -> Option<u16>
        ensures { MatchOption result (Stands (reading self.now.state) × IsLeg (B.meaning self.now.book) leg → ⊥) (λ m. Stands (reading self.now.state) × IsLeg (B.meaning self.now.book) leg × (m ≡ minutes_of self.now.state leg)) }
    {
        let Some((found, place)) = self.place(leg) else {
            return None;
        };
        Some(found.minutes[place])
    }

    // The price of a leg, as the leg and minute that name it; absent on a blank sheet or for a leg that is not there.
    pub fn price(&self, leg: u8) -> Option<Price>
        ensures { MatchOption result (Stands (reading self.now.state) × IsLeg (B.meaning self.now.book) leg → ⊥) (λ p. Stands (reading self.now.state) × IsLeg (B.meaning self.now.book) leg × (p ≡ prices_of self.now.state leg)) }
    {
        let Some((found, place)) = self.place(leg) else {
            return None;
        };
        Some(found.prices[place])
    }

    // The cost of the timing that stands; absent on a blank sheet.
    pub fn cost(&self) -> Option<B::Cost>
        ensures { Sound (B.meaning self.now.book) B.Cost.Amount.le self.now.state → MatchOption result (Stands (reading self.now.state) → ⊥) (λ a. Stands (reading self.now.state) × (B.Cost.Amount.row a ≡ cost_of_timing (B.meaning self.now.book) (minutes_of self.now.state))) }
    {
        let Some(standing) = &self.state.standing else {
            return None;
        };
        standing.cost(&self.book)
    }

    // Carries out a call that puts a timing on the sheet.
    fn timed(
        &mut self,
        call: Call,
        minutes: &mut [u16],
        amounts: &mut [B::Cost],
    ) -> Result<B::Cost, SheetFault>
        requires { Times call }
        ensures { Called B.meaning B.Cost.Amount.le (timed B.Cost.Amount.row) self.old self.new call minutes.old minutes.new amounts.old amounts.new result }
    {
        let cost = self.state.call(&self.book, call, minutes, amounts)?;
        Ok(cost.unwrap())
    }

    // The timing and prices that stand, and the place of a leg in them; absent on a blank sheet or for a leg that the book
    // does not have.
    fn place(&self, leg: u8) -> Option<(&Solution, usize)>
        ensures { MatchOption result (Stands (reading self.now.state) × IsLeg (B.meaning self.now.book) leg → ⊥) (λ p. Stands (reading self.now.state) × IsLeg (B.meaning self.now.book) leg × (at p.0.now.minutes ≡ minutes_of self.now.state) × (price_at p.0.now.prices ≡ prices_of self.now.state) × (p.1 ≡ leg) × (p.1 < 65)) }
    {
        self.book.keeps_laws();
        let Some(standing) = &self.state.standing else {
            return None;
        };
        let Some(_ends) = self.book.ends(leg as usize) else {
            return None;
        };
        Some((&standing.found, leg as usize))
    }
}
