// Why there is no timing for a plan.

// What a plan lacks: it does not fit the book, or a leg is the first at which nothing is left.
#[derive(Clone, Copy, PartialEq, Eq, Debug)]
pub enum PlanFault {
    // settings that do not fit the book: it has no leg, or a number is out of order or out of range
    Unlawful,
    // no minutes for the legs up to this one keep their bounds and windows
    Stuck { leg: u8 },
}
