// When each stop can be reached: whether there is a timing, and where nothing is left.
ghost use Rattle.std.specs.Prelude.{◌≡◌, ℕ, ◌+◌, ◌-◌, ◌^◌, ◌<◌, ◌≤◌, min, max, MatchResult};
ghost use Rattle.optimum.specs.Method.{Reach, Between};
ghost use Rattle.solver.specs.Outcomes.{Blocked};
ghost use Rattle.solver.specs.Plans.{los, his, settings, Small, Clipped};

use crate::course::Course;
use crate::fault::PlanFault;
use books::Ends;

// The minutes that lie in both ranges.
fn both(a: Ends, b: Ends) -> Ends
    ensures { (result.lo ≡ max a.lo b.lo) × (result.hi ≡ min a.hi b.hi) }
{
    Ends {
        lo: a.lo.max(b.lo),
        hi: a.hi.min(b.hi),
    }
}

// The sums of minutes of two ranges.
fn plus(a: Ends, b: Ends) -> Ends
    requires { (a.lo + b.lo < 2 ^ 16) × (a.hi + b.hi < 2 ^ 16) }
    ensures { (result.lo ≡ a.lo + b.lo) × (result.hi ≡ a.hi + b.hi) }
{
    Ends {
        lo: a.lo + b.lo,
        hi: a.hi + b.hi,
    }
}

// The minutes that lie between one of `b` and one of `a`.
fn between(a: Ends, b: Ends) -> Ends
    ensures { (result.lo ≡ a.lo - b.hi) × (result.hi ≡ a.hi - b.lo) }
{
    Ends {
        lo: a.lo.saturating_sub(b.hi),
        hi: a.hi.saturating_sub(b.lo),
    }
}

impl Course<'_> {
    // Goes forward over the legs: for each stop the minutes from the earliest to the latest at which legs that keep their bounds
    // and windows so far can reach it; or the first leg at which nothing is left.
    pub(crate) fn forward(&self) -> Result<[Ends; 65], PlanFault>
        requires { Small self.now.legs (settings self.now.plan.now) }
        ensures { MatchResult result (λ spans. (k : ℕ) → k ≤ self.now.legs → Reach self.now.legs (settings self.now.plan.now) k (los spans k) (his spans k)) (λ fault. Blocked self.now.legs (settings self.now.plan.now) fault) }
    {
        let mut spans = [Ends { lo: 0, hi: 0 }; 65];
        let mut span = spans[0];
        for (k, place) in spans[1..=self.legs].iter_mut().enumerate() {
            let stop = k + 1;
            let window = self.window(stop);
            span = both(window, plus(span, self.plan.bounds[stop]));
            if span.hi < span.lo {
                return Err(PlanFault::Stuck { leg: stop as u8 });
            }
            *place = span;
        }
        Ok(spans)
    }

    // Goes back from the total: narrows each span to what the stops behind it leave.
    pub(crate) fn backward(&self, mut spans: [Ends; 65]) -> [Ends; 65]
        requires { Between self.now.legs (settings self.now.plan.now) (los spans) (his spans) }
        ensures { Between self.now.legs (settings self.now.plan.now) (los result) (his result) }
    {
        // by index: from the last to the first, and after `iter_mut().rev()` a proof knows only how many spans there are
        for k in (0..self.legs).rev() {
            spans[k] = both(spans[k], between(spans[k + 1], self.plan.bounds[k + 1]));
        }
        spans
    }

    // The bounds of the legs, clipped to what the spans of the stops leave of them.
    pub(crate) fn clip(&self, spans: &[Ends; 65]) -> [Ends; 65]
        requires { Between self.now.legs (settings self.now.plan.now) (los spans.now) (his spans.now) }
        ensures { Clipped self.now.legs self.now.legs (settings self.now.plan.now) (los result) (his result) }
    {
        let mut ranges = [Ends { lo: 0, hi: 0 }; 65];
        for (k, range) in ranges[1..=self.legs].iter_mut().enumerate() {
            *range = both(self.plan.bounds[k + 1], between(spans[k + 1], spans[k]));
        }
        ranges
    }
}
