// Cost books: the interface, and the books of the engine.
#![tactic(auto)]

ghost use Rattle.std.specs.Prelude.{◌≡◌, ◌<◌, ◌≤◌, ◌⊎◌, MatchBool, MatchOption};
ghost use Rattle.books.specs.Meaning.{Meaning, IsLeg, Priced, Shaped, Ranged, Convex};

use amounts::Amount;

mod fault;
mod formula;

pub use fault::BookFault;
pub use formula::{FormulaBook, FormulaLeg};

// The most legs that a book can have.
pub const MOST_LEGS: usize = 64;

// The greatest minute.
pub const LAST_MINUTE: u16 = 4095;

// The two ends of a range of minutes: of those that a leg can be flown in, of a leg's bounds, of a stop's window.
#[derive(Clone, Copy, PartialEq, Eq, Debug)]
pub struct Ends {
    pub lo: u16,
    pub hi: u16,
}

impl Ends {
    // Whether some minutes are at least the lower end and at most the upper one.
    pub fn contains(self, minutes: u16) -> bool
        ensures { MatchBool result ((self.lo ≤ minutes) × (minutes ≤ self.hi)) ((minutes < self.lo) ⊎ (self.hi < minutes)) }
    {
        (self.lo..=self.hi).contains(&minutes)
    }
}

// A book: for each leg its two ends, and the cost of each minute between them.
pub trait Book {
    // the kind of amount of the book's costs
    type Cost: Amount;

    ghost meaning: { Self → Meaning };

    // The laws of a book: it runs nothing, and its contract says what every book keeps. It is a function, and no law of the trait, as
    // the laws are asked for as promises of a book's functions.
    fn keeps_laws(&self)
        ensures shape { Shaped (meaning self.now) }
        ensures range { Ranged Self.Cost.Amount.places (meaning self.now) }
        ensures steps { Convex Self.Cost.Amount.le (meaning self.now) };

    // How many legs the book has.
    fn legs(&self) -> usize
        ensures { result ≡ (meaning self.now).legs };

    // The two ends of a leg, counted from 1; absent exactly if there is no such leg.
    fn ends(&self, leg: usize) -> Option<Ends>
        ensures { MatchOption result (IsLeg (meaning self.now) leg → ⊥) (λ e. IsLeg (meaning self.now) leg × (e.lo ≡ (meaning self.now).lo leg) × (e.hi ≡ (meaning self.now).hi leg)) };

    // The cost of some minutes on a leg; absent exactly if there is no such leg or the minutes lie outside its ends.
    fn cost(&self, leg: usize, minutes: u16) -> Option<Self::Cost>
        ensures { MatchOption result (Priced (meaning self.now) leg minutes → ⊥) (λ a. Priced (meaning self.now) leg minutes × (Self.Cost.Amount.row a ≡ (meaning self.now).cost leg minutes)) };
}
