// Whether a plan fits a book.
ghost use Rattle.std.specs.Prelude.{ℕ, ◌<◌, ◌≤◌, MatchBool};
ghost use Rattle.books.specs.Meaning.{IsLeg};
ghost use Rattle.solver.specs.Plans.{settings, Inside, BoundsFit, WindowsFit, Lawful};

use crate::course::Course;
use crate::plan::Plan;
use books::{Book, Ends, LAST_MINUTE};

// Whether a range is in order and lies inside another.
fn inside(range: Ends, outer: Ends) -> bool
    ensures { MatchBool result (Inside range outer) (Inside range outer → ⊥) }
{
    outer.lo <= range.lo && range.lo <= range.hi && range.hi <= outer.hi
}

// Whether a leg's bounds are in order and within its ends. It is asked of a leg of the book alone.
fn leg_fits<B: Book>(book: &B, plan: &Plan, leg: usize) -> bool
    ensures { MatchBool result (BoundsFit (B.meaning book.now) (settings plan.now) leg) (IsLeg (B.meaning book.now) leg → BoundsFit (B.meaning book.now) (settings plan.now) leg → ⊥) }
{
    book.keeps_laws();
    let Some(ends) = book.ends(leg) else {
        return false;
    };
    inside(plan.bounds[leg], ends)
}

// Whether the bounds of every leg are in order and within its ends.
fn bounds_fit<B: Book>(book: &B, plan: &Plan) -> bool
    ensures { MatchBool result ((i : ℕ) → IsLeg (B.meaning book.now) i → BoundsFit (B.meaning book.now) (settings plan.now) i) (((i : ℕ) → IsLeg (B.meaning book.now) i → BoundsFit (B.meaning book.now) (settings plan.now) i) → ⊥) }
{
    book.keeps_laws();
    // up to one more: for `all` over `..=` the library has no lemma, and `search` finds no proof
    (1..book.legs() + 1).all(|leg| leg_fits(book, plan, leg))
}

impl Course<'_> {
    // Whether the window of every stop before the last is in order and ends by the last minute.
    fn windows_fit(&self) -> bool
        requires { 1 ≤ self.now.legs }
        ensures { MatchBool result ((k : ℕ) → 1 ≤ k → k < self.now.legs → WindowsFit (settings self.now.plan.now) k) (((k : ℕ) → 1 ≤ k → k < self.now.legs → WindowsFit (settings self.now.plan.now) k) → ⊥) }
    {
        let day = Ends {
            lo: 0,
            hi: LAST_MINUTE,
        };
        let plan = self.plan;
        plan.windows[1..self.legs]
            .iter()
            .all(|window| inside(*window, day))
    }
}

// Whether a plan is one that fits a book.
pub(crate) fn lawful<B: Book>(book: &B, plan: &Plan) -> bool
    ensures { MatchBool result (Lawful (B.meaning book.now) (settings plan.now)) (Lawful (B.meaning book.now) (settings plan.now) → ⊥) }
{
    let course = Course::over(book, plan);
    course.legs > 0 && plan.total <= LAST_MINUTE && bounds_fit(book, plan) && course.windows_fit()
}
