// Charge books: rates in cents a minute over any book.
ghost use Rattle.std.specs.Prelude.{◌≡◌, ℕ, ◌*◌, ◌≤◌, pos, MatchResult, length, slice_index};
ghost use Rattle.amounts.specs.Rows.{single, nearest};
ghost use Rattle.board.specs.Rules.{Clear, Broken};
ghost use Rattle.books.specs.Faults.{told};
ghost use Rattle.books.specs.Boards.{leg_rules, rate_rules};
ghost use Rattle.books.specs.Formula.{formulas, Appended};
ghost use Rattle.charges.specs.Charges.{charged, RateSet, rate};

use amounts::{Cents, Ranked};
use books::{Book, BookFault, Ends, FormulaBook, FormulaLeg, MOST_LEGS};

// A rate in cents a minute for each of 64 legs.
#[derive(Clone, Copy)]
struct Rates {
    values: [u16; MOST_LEGS],
    ghost small: { (k : ℕ) → slice_index values k ≤ 65535 },
}

impl Rates {
    // Rate 0 on every leg.
    fn new() -> Self
        ensures { (i : ℕ) → rate result.values i ≡ 0 }
    {
        Rates {
            values: [0; MOST_LEGS],
        }
    }

    // Sets the rate of one leg, or refuses it and leaves the rates as they stood.
    fn set(&mut self, leg: u8, value: u16) -> Result<(), BookFault>
        ensures { MatchResult result (λ _. Clear (rate_rules leg) × RateSet self.old.values leg value self.new.values) (λ f. Broken (rate_rules leg) (told f) × (self.new ≡ self.old)) }
    {
        if !(1..=MOST_LEGS).contains(&usize::from(leg)) {
            return Err(BookFault::NoSuchLeg { leg });
        }
        self.values[usize::from(leg) - 1] = value;
        Ok(())
    }

    // The cents for some minutes on a leg.
    fn charge(&self, leg: usize, minutes: u16) -> Cents
        requires { (1 ≤ leg) × (leg ≤ 64) }
        ensures { single (nearest result.value) ≡ single (pos (rate self.now.values leg * minutes)) }
    {
        let cents = u32::from(self.values[leg - 1]) * u32::from(minutes);
        Cents::new(i64::from(cents))
    }
}

// A book over another: to each cost below it adds, in second rank, a rate of the leg in cents a minute.
#[derive(Drop)]
pub struct ChargeBook<B> {
    below: B,
    rates: Rates,
}

impl<B: Book> ChargeBook<B> {
    // The charge book over a book, with rate 0 on every leg.
    pub fn new(below: B) -> Self
        ensures below { result.below ≡ below }
        ensures rates { (i : ℕ) → rate result.rates.values i ≡ 0 }
    {
        ChargeBook {
            below,
            rates: Rates::new(),
        }
    }

    // The book below.
    pub fn below(&self) -> &B
        ensures { result.now ≡ self.now.below }
    {
        &self.below
    }

    // Sets the rate of one leg, or refuses it and leaves the book as it stood.
    pub fn set_rate(&mut self, leg: u8, rate: u16) -> Result<(), BookFault>
        ensures { MatchResult result (λ _. Clear (rate_rules leg) × (self.new.below ≡ self.old.below) × RateSet self.old.rates.values leg rate self.new.rates.values) (λ f. Broken (rate_rules leg) (told f) × (self.new ≡ self.old)) }
    {
        self.rates.set(leg, rate)
    }
}

impl ChargeBook<FormulaBook> {
    // Adds a leg to the formula book below, or refuses it and leaves the book as it stood; the rates stay.
    pub fn add_leg(&mut self, leg: FormulaLeg) -> Result<(), BookFault>
        ensures rates { self.new.rates ≡ self.old.rates }
        ensures legs { MatchResult result (λ _. Clear (leg_rules (length self.old.below.legs.items) leg) × Appended (formulas self.old.below.legs.items) leg (formulas self.new.below.legs.items)) (λ f. Broken (leg_rules (length self.old.below.legs.items) leg) (told f) × (self.new ≡ self.old)) }
    {
        self.below.add_leg(leg)
    }
}

impl<B: Book> Book for ChargeBook<B> {
    type Cost = Ranked<B::Cost, Cents>;

    ghost meaning = { λ b. charged B.Cost.Amount.places (B.Book.meaning b.below) b.rates.values };

    fn keeps_laws(&self) {
        self.below.keeps_laws();
    }

    fn legs(&self) -> usize {
        self.below.legs()
    }

    fn ends(&self, leg: usize) -> Option<Ends> {
        self.below.ends(leg)
    }

    fn cost(&self, leg: usize, minutes: u16) -> Option<Ranked<B::Cost, Cents>> {
        self.below.keeps_laws();
        let first = self.below.cost(leg, minutes)?;
        let second = self.rates.charge(leg, minutes);
        Some(Ranked { first, second })
    }
}
