// The two moves of one minute: which step each takes, what it does to a leg's range, and how many moves a stop needs.
ghost use Rattle.std.specs.Prelude.{◌≡◌, ◌<◌, ◌≤◌, MatchBool};
ghost use Rattle.solver.specs.Steps.{Direction, Up, Down, Before, edge_of, end_of, moved};
ghost use Rattle.solver.specs.Narrowing.{Lacking};

use amounts::Amount;
use books::Ends;

// A move of one minute on the range of a leg that is open.
pub(crate) trait Way {
    // the direction in which a leg's minutes go
    ghost goes: { Direction };

    // The minute whose step the move takes: the first open one, or the last.
    fn edge(range: Ends) -> u16
        requires { range.lo < range.hi }
        ensures { result ≡ edge_of goes range };

    // The end of a range that the move moves.
    fn end(range: Ends) -> u16
        ensures { result ≡ end_of goes range };

    // The range after the move.
    fn moved(range: Ends) -> Ends
        requires { range.lo < range.hi }
        ensures { result ≡ moved goes range };

    // Whether the newer amount goes before the older one; among equals the newer when legs are raised, and the older when they are lowered.
    fn ahead<A: Amount>(newer: A, older: A) -> bool
        ensures { MatchBool result (Before goes A.Amount.le (A.Amount.row newer) (A.Amount.row older)) (Before goes A.Amount.le (A.Amount.row older) (A.Amount.row newer)) };

    // How many moves it takes from where a stop is reached to its window; a window that shuts no earlier than the total lacks
    // none on that side.
    fn lacking(total: u16, window: Ends, reached: usize) -> usize
        ensures { Lacking goes total window reached result };
}

// One minute more for the open leg with the least next step.
pub(crate) struct Raise;

impl Way for Raise {
    ghost goes = { Up };

    fn edge(range: Ends) -> u16 {
        range.lo
    }

    fn end(range: Ends) -> u16 {
        range.lo
    }

    fn moved(range: Ends) -> Ends {
        Ends {
            lo: range.lo + 1,
            hi: range.hi,
        }
    }

    fn ahead<A: Amount>(newer: A, older: A) -> bool {
        newer.at_most(older)
    }

    fn lacking(_total: u16, window: Ends, reached: usize) -> usize {
        (window.lo as usize).saturating_sub(reached)
    }
}

// One minute less for the open leg with the greatest last step.
pub(crate) struct Lower;

impl Way for Lower {
    ghost goes = { Down };

    fn edge(range: Ends) -> u16 {
        range.hi - 1
    }

    fn end(range: Ends) -> u16 {
        range.hi
    }

    fn moved(range: Ends) -> Ends {
        Ends {
            lo: range.lo,
            hi: range.hi - 1,
        }
    }

    fn ahead<A: Amount>(newer: A, older: A) -> bool {
        !newer.at_most(older)
    }

    fn lacking(total: u16, window: Ends, reached: usize) -> usize {
        if total <= window.hi {
            return 0;
        }
        reached.saturating_sub(window.hi as usize)
    }
}
