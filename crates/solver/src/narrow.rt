// Narrows the ranges of the legs stop by stop, one minute at a time, until one cheapest timing is left.
ghost use Rattle.std.specs.Prelude.{◌≡◌, ◌+◌, ◌<◌, ◌≤◌};
ghost use Rattle.optimum.specs.Rotation.{reached, Cheapest};
ghost use Rattle.optimum.specs.Method.{Fits, Boxed};
ghost use Rattle.solver.specs.Plans.{at, los, his, settings};
ghost use Rattle.solver.specs.Narrowing.{moving, resting, Settled};

use crate::course::Course;
use crate::plan::Plan;
use crate::steps::{Front, refresh};
use crate::way::{Lower, Raise, Way};
use books::{Book, Ends};

impl Front<'_> {
    // The ends that a move moves, of all the legs together.
    fn sum<W: Way>(&self) -> usize
        ensures { result ≡ reached (moving W.goes self.now.ranges.now) self.now.legs }
    {
        let ranges = self.ranges;
        ranges[1..=self.legs]
            .iter()
            .map(|range| W::end(*range) as usize)
            .sum()
    }
}

// Moves one end of the ranges of the legs up to stop `done + 1` until it can no longer be reached outside its window on that
// side: each time one minute, on the open leg whose step goes before those of the others.
fn settle<W: Way, B: Book>(
    book: &B,
    plan: &Plan,
    ranges: &mut [Ends; 65],
    done: usize,
    steps: &mut [B::Cost],
)
    requires done_bound { done + 1 ≤ (B.meaning book.now).legs }
    requires fits { Fits (B.meaning book.now) (settings plan.now) × Boxed (B.meaning book.now) B.Cost.Amount.le (settings plan.now) (los ranges.old) (his ranges.old) done }
    ensures boxed { Boxed (B.meaning book.now) B.Cost.Amount.le (settings plan.now) (los ranges.new) (his ranges.new) done }
    ensures settled { Settled W.goes (B.meaning book.now) (settings plan.now) ranges.new (done + 1) }
    ensures rests { resting W.goes ranges.new ≡ resting W.goes ranges.old }
{
    book.keeps_laws();
    let stop = done + 1;
    let window = Course::over(book, plan).window(stop);
    let front = Front { ranges, legs: stop };
    let lacking = W::lacking(plan.total, window, front.sum::<W>());
    if lacking == 0 {
        return;
    }
    front.gather::<W, B>(book, steps);
    for _ in 0..lacking {
        let front = Front { ranges, legs: stop };
        let leg = front.choose::<W, B>(book, steps);
        let ends = W::moved(ranges[leg]);
        ranges[leg] = ends;
        refresh::<W, B>(book, ends, leg, steps);
    }
}

// The low ends of some ranges. It is a loop, since `map` of an array fills a second one with options first.
fn lows(ranges: &[Ends; 65]) -> [u16; 65]
    ensures { at result ≡ los ranges.now }
{
    let mut lows = [0; 65];
    for (leg, low) in lows.iter_mut().enumerate() {
        *low = ranges[leg].lo;
    }
    lows
}

// Settles one stop after the other, and last the total: what is left is a cheapest timing.
pub(crate) fn narrow<B: Book>(
    book: &B,
    plan: &Plan,
    mut ranges: [Ends; 65],
    steps: &mut [B::Cost],
) -> [u16; 65]
    requires bound { (1 ≤ (B.meaning book.now).legs) × Fits (B.meaning book.now) (settings plan.now) }
    requires boxed { Boxed (B.meaning book.now) B.Cost.Amount.le (settings plan.now) (los ranges) (his ranges) 0 }
    ensures { Cheapest (B.meaning book.now) B.Cost.Amount.le (settings plan.now) (at result) }
{
    let last = book.legs() - 1;
    // `done` counts stops, and indexes no array
    for done in 0..last {
        settle::<Raise, B>(book, plan, &mut ranges, done, steps);
        settle::<Lower, B>(book, plan, &mut ranges, done, steps);
    }
    settle::<Raise, B>(book, plan, &mut ranges, last, steps);
    lows(&ranges)
}
