// Formula books: legs whose kilograms follow a formula in the minutes.
ghost use Rattle.std.specs.Prelude.{◌≡◌, ℕ, ◌^◌, ◌<◌, ◌≤◌, pos, ◌-ℤ◌, ◌*ℤ◌, MatchResult, length, slice_index_or};
ghost use Rattle.std.specs.Option as options;
ghost use Rattle.books.specs.Meaning.{IsLeg};
ghost use Rattle.board.specs.Rules.{Clear, Broken};
ghost use Rattle.books.specs.Faults.{told};
ghost use Rattle.books.specs.Boards.{leg_rules};
ghost use Rattle.books.specs.Formula.{kilograms, Timed, Weighed, blank, at, formulas, Appended};

use crate::{Book, BookFault, Ends, LAST_MINUTE, MOST_LEGS};
use amounts::Kilograms;
use arrayvec::ArrayVec;

// How far r may lie from 0.
const FIXED_LIMIT: i32 = 0x2000_0000;

// A leg that costs q times the square of the minutes' distance from t, and r, in kilograms; flown in lo to hi minutes.
#[derive(Clone, Copy, PartialEq, Eq, Debug, Default)]
pub struct FormulaLeg {
    pub q: u16,
    pub t: u16,
    pub r: i32,
    pub lo: u16,
    pub hi: u16,
}

// The square of the difference of two minutes.
fn squared_gap(a: u16, b: u16) -> u64
    ensures value { pos result ≡ (pos a -ℤ pos b) *ℤ (pos a -ℤ pos b) }
    ensures small { result < 2 ^ 32 }
{
    u64::from(a.abs_diff(b)).pow(2)
}

impl FormulaLeg {
    // The minutes that the leg can be flown in.
    fn ends(self) -> Ends
        ensures { (result.lo ≡ self.lo) × (result.hi ≡ self.hi) }
    {
        Ends {
            lo: self.lo,
            hi: self.hi,
        }
    }

    // The cost of some minutes, whatever they are.
    fn kilograms(self, minutes: u16) -> i64
        ensures { result ≡ kilograms self minutes }
    {
        let varying = u64::from(self.q) * squared_gap(minutes, self.t);
        varying as i64 + i64::from(self.r)
    }
}

// A book of at most 64 such legs.
#[derive(Drop)]
pub struct FormulaBook {
    legs: ArrayVec<FormulaLeg, MOST_LEGS>,
    ghost few: { length legs.items ≤ 64 },
    ghost timed: { (k : ℕ) → Timed (slice_index_or legs.items k blank) },
    ghost weighed: { (k : ℕ) → Weighed (slice_index_or legs.items k blank) },
}

impl FormulaBook {
    // The book with no legs.
    pub fn new() -> Self
        ensures { (formulas result.legs.items).legs ≡ 0 }
    {
        FormulaBook {
            legs: ArrayVec::new(),
        }
    }

    // Whether a leg may be added, by the rows of the board.
    fn check(&self, leg: FormulaLeg) -> Result<(), BookFault>
        ensures { MatchResult result (λ _. Clear (leg_rules (length self.now.legs.items) leg)) (λ f. Broken (leg_rules (length self.now.legs.items) leg) (told f)) }
    {
        if self.legs.is_full() {
            return Err(BookFault::TooManyLegs);
        }
        let number = self.legs.len() as u8 + 1;
        if leg.lo > leg.hi || leg.hi > LAST_MINUTE || leg.t > LAST_MINUTE {
            return Err(BookFault::BadLeg { leg: number });
        }
        if !(-FIXED_LIMIT..=FIXED_LIMIT).contains(&leg.r) {
            return Err(BookFault::OutOfRange { leg: number });
        }
        Ok(())
    }

    // Adds a leg behind the others, or refuses it and leaves the book as it stood.
    pub fn add_leg(&mut self, leg: FormulaLeg) -> Result<(), BookFault>
        ensures { MatchResult result (λ _. Clear (leg_rules (length self.old.legs.items) leg) × Appended (formulas self.old.legs.items) leg (formulas self.new.legs.items)) (λ f. Broken (leg_rules (length self.old.legs.items) leg) (told f) × (self.new ≡ self.old)) }
    {
        self.check(leg)?;
        self.legs.push(leg);
        Ok(())
    }

    // A leg, counted from 1; absent exactly if there is no such leg.
    fn leg(&self, number: usize) -> Option<FormulaLeg>
        ensures { options.MatchOption result (IsLeg (formulas self.now.legs.items) number → ⊥) (λ l. IsLeg (formulas self.now.legs.items) number × (l ≡ at self.now.legs.items number)) }
    {
        self.legs.get(number.checked_sub(1)?).copied()
    }
}

impl Book for FormulaBook {
    type Cost = Kilograms;

    ghost meaning = { λ b. formulas b.legs.items };

    fn keeps_laws(&self) {}

    fn legs(&self) -> usize {
        self.legs.len()
    }

    fn ends(&self, leg: usize) -> Option<Ends> {
        Some(self.leg(leg)?.ends())
    }

    fn cost(&self, leg: usize, minutes: u16) -> Option<Kilograms> {
        let leg = self.leg(leg)?;
        if !leg.ends().contains(minutes) {
            return None;
        }
        Some(Kilograms::new(leg.kilograms(minutes)))
    }
}
