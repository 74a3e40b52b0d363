// The plans that calls leave.
ghost use Rattle.std.specs.Prelude.{◌≡◌, ◌<◌};
ghost use Rattle.solver.specs.Plans.{settings};
ghost use Rattle.register.specs.Register.{opened, with_bounds, with_window};

use books::{Book, Ends, LAST_MINUTE};
use solver::Plan;

// What stands in the place of bounds where there is no leg.
const NO_LEG: Ends = Ends { lo: 0, hi: 0 };

// The window of a stop that no window is set for.
pub(crate) const FREE: Ends = Ends {
    lo: 0,
    hi: LAST_MINUTE,
};

// The plan of an open: the book's ends as bounds, and every window 0 to 4,095.
pub(crate) fn opened_plan<B: Book>(book: &B, total: u16) -> Plan
    ensures { settings result ≡ opened (B.meaning book.now) total }
{
    book.keeps_laws();
    let mut bounds = [NO_LEG; 65];
    for (k, place) in bounds[1..=book.legs()].iter_mut().enumerate() {
        *place = book.ends(k + 1).unwrap_or(NO_LEG);
    }
    Plan {
        total,
        bounds,
        windows: [FREE; 65],
    }
}

// The plan with other bounds of a leg.
pub(crate) fn set_bounds(mut plan: Plan, leg: usize, bounds: Ends) -> Plan
    requires { leg < 65 }
    ensures { settings result ≡ with_bounds leg bounds.lo bounds.hi (settings plan) }
{
    plan.bounds[leg] = bounds;
    plan
}

// The plan with another window of a stop. Apart from the bounds: which of two fields is written is all that the two say.
pub(crate) fn set_window(mut plan: Plan, stop: usize, window: Ends) -> Plan
    requires { stop < 65 }
    ensures { settings result ≡ with_window stop window.lo window.hi (settings plan) }
{
    plan.windows[stop] = window;
    plan
}
