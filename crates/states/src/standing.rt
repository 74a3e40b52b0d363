// What stands on a sheet: its settings, a cheapest timing and its prices.
ghost use Rattle.std.specs.Prelude.{◌≡◌, ℕ, ◌+◌, ◌<◌, length, slice_index, MatchOption};
ghost use Rattle.optimum.specs.Rotation.{cost_of_timing};
ghost use Rattle.solver.specs.Plans.{at};
ghost use Rattle.states.specs.Costs.{Affordable};

use crate::cost::cost_of;
use books::Book;
use solver::{Plan, Solution};

// Settings, and a timing for them with its prices, by the number of the leg.
#[derive(Clone, Copy)]
pub struct Standing {
    pub plan: Plan,
    pub found: Solution,
}

impl Standing {
    // The minutes of the legs of a book, leg 1 first.
    #[tactic(auto, using(crate::proofs::Summing::slice_at))]
    pub fn timing<B: Book>(&self, book: &B) -> &[u16]
        ensures legs { length result.now ≡ (B.meaning book.now).legs }
        ensures minutes { (k : ℕ) → k < (B.meaning book.now).legs → slice_index result.now k ≡ at self.now.found.minutes (k + 1) }
    {
        book.keeps_laws();
        &self.found.minutes[1..=book.legs()]
    }

    // What the timing costs on a book: the sum over the legs; absent exactly if the book has no cost for one of them.
    pub fn cost<B: Book>(&self, book: &B) -> Option<B::Cost>
        ensures { MatchOption result (Affordable (B.meaning book.now) (at self.now.found.minutes) → ⊥) (λ a. Affordable (B.meaning book.now) (at self.now.found.minutes) × (B.Cost.Amount.row a ≡ cost_of_timing (B.meaning book.now) (at self.now.found.minutes))) }
    {
        cost_of(book, self.timing(book))
    }
}
