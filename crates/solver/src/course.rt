// A plan over the legs of a book, and the windows of its stops.
ghost use Rattle.std.specs.Prelude.{◌≡◌, ◌<◌};
ghost use Rattle.optimum.specs.Rotation.{earliest, latest};
ghost use Rattle.solver.specs.Plans.{settings};

use crate::plan::Plan;
use books::{Book, Ends};

// A plan and the number of the legs that it is for. The book itself is not in it, though most functions here take book and plan: what
// they ask of the two together is a fact about costs, which no ghost field can hold for any kind of amount, so a struct of both
// would only lengthen their clauses.
#[derive(Clone, Copy)]
pub(crate) struct Course<'a> {
    pub(crate) plan: &'a Plan,
    pub(crate) legs: usize,
    ghost few: { legs < 65 },
}

impl<'a> Course<'a> {
    // The plan over the legs of the book.
    pub(crate) fn over<B: Book>(book: &B, plan: &'a Plan) -> Course<'a>
        ensures { (result.plan.now ≡ plan.now) × (result.legs ≡ (B.meaning book.now).legs) }
    {
        book.keeps_laws();
        Course {
            plan,
            legs: book.legs(),
        }
    }

    // The window of a stop; the total is the window of the last.
    pub(crate) fn window(&self, stop: usize) -> Ends
        requires { stop < 65 }
        ensures { (result.lo ≡ earliest self.now.legs (settings self.now.plan.now) stop) × (result.hi ≡ latest self.now.legs (settings self.now.plan.now) stop) }
    {
        let plan = self.plan;
        if stop == self.legs {
            Ends {
                lo: plan.total,
                hi: plan.total,
            }
        } else {
            plan.windows[stop]
        }
    }
}
