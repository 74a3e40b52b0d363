// Finds a cheapest timing for a plan over any book, with prices that show it to be cheapest.
#![tactic(auto)]

ghost use Rattle.std.specs.Prelude.{◌≡◌, OnErr};
ghost use Rattle.solver.specs.Plans.{settings};
ghost use Rattle.solver.specs.Outcomes.{Solves};

use amounts::Amount;
use books::Book;
use optimum::Price;

mod course;
mod fault;
mod lawful;
mod narrow;
mod plan;
mod pricing;
mod reach;
mod steps;
mod way;

use course::Course;
pub use fault::PlanFault;
use lawful::lawful;
use narrow::narrow;
pub use plan::Plan;
use pricing::prices;

// A timing and its prices, by the number of the leg; place 0 belongs to none. They are two arrays, since prices are found when the
// minutes stand, and minutes are lent as a slice.
#[derive(Clone, Copy)]
pub struct Solution {
    pub minutes: [u16; 65],
    pub prices: [Price; 65],
}

// Solves a plan over a book. The area is room for steps, used as far as it reaches; it is written only if there is a timing.
pub fn solve<B: Book>(book: &B, plan: &Plan, steps: &mut [B::Cost]) -> Result<Solution, PlanFault>
    ensures solves { Solves (B.meaning book.now) B.Cost.Amount.le (settings plan.now) result }
    ensures unwritten { OnErr result (steps.new ≡ steps.old) }
{
    if !lawful(book, plan) {
        return Err(PlanFault::Unlawful);
    }
    book.keeps_laws();
    let course = Course::over(book, plan);
    let spans = course.backward(course.forward()?);
    let minutes = narrow(book, plan, course.clip(&spans), steps);
    let prices = prices(book, plan, &minutes, steps);
    Ok(Solution { minutes, prices })
}
