// Kinds of amount: the interface, and the kinds kilograms, cents and ranked.
#![tactic(auto)]

ghost use Rattle.std.specs.Prelude.{◌≡◌, ℕ};
ghost use Rattle.amounts.specs.Rows.{Row, none, plus, minus, Ends, InRange, Exactly};
ghost use Rattle.amounts.specs.Orders.{Order, Tells};

mod ranked;
mod single;

pub use ranked::Ranked;
pub use single::{Cent, Cents, Kilogram, Kilograms, Single, Unit};

// A kind of amount. An amount means a row of whole numbers, each from -2^47 to 2^47, as many as the kind says.
pub trait Amount: Copy {
    // how many places a row of this kind has
    ghost places: { ℕ };

    // the row that an amount means
    ghost row: { Self → Row };

    // the order of the kind, on all rows of its places
    ghost le: { Row → Row → Type 0 };

    // The amount with 0 in every place.
    fn zero() -> Self
        ensures { row result ≡ none };

    // The sum, place by place; absent exactly if some place of it lies beyond the range.
    fn checked_add(self, other: Self) -> Option<Self>
        ensures { Exactly places row (plus (row self) (row other)) result };

    // The difference, place by place; absent exactly if some place of it lies beyond the range.
    fn checked_sub(self, other: Self) -> Option<Self>
        ensures { Exactly places row (minus (row self) (row other)) result };

    // Whether this amount is at most the other in the order of the kind. It is no `PartialOrd`: that goes with an `==`, and a
    // derived one tells apart fields beyond the range that are read as the same end.
    fn at_most(self, other: Self) -> bool
        ensures { Tells result (le (row self) (row other)) };

    ghost order: { Order places le };

    ghost ranged: { (a : Self) → InRange places (row a) };

    ghost ended: { (a : Self) → Ends places (row a) };
}
