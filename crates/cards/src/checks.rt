// The checks of loading, row by row, each over all legs.
ghost use Rattle.std.specs.Prelude.{◌≡◌, ℕ, ◌<◌, ◌≤◌, length, ◌-ℤ◌, ◌<ℤ◌, None, MatchOption, MatchResult};
ghost use Rattle.amounts.specs.Orders.{Tells};
ghost use Rattle.board.specs.Rules.{each, Holds, Breaks, Clear, Broken};
ghost use Rattle.books.specs.Faults.{row, told, middle};
ghost use Rattle.cards.specs.Cards.{Leg, NoneIs, Lowest, BadHead, Malformed, SomeLarge, Drops, TooLarge, Falling, TellsLowest, costs_of, shape_rules, board};

use crate::deck::{Deck, Shaped};
use books::{BookFault, LAST_MINUTE, MOST_LEGS};

// The greatest minute of a leg.
const LATEST: usize = LAST_MINUTE as usize;

// The greatest size of a card, 2^40.
const LIMIT: i64 = 0x100_0000_0000;

// Whether some cost lies beyond the range of cards.
fn some_large(costs: &[i64]) -> bool
    ensures { Tells result (SomeLarge costs.now) }
{
    costs.iter().any(|cost| !(-LIMIT..=LIMIT).contains(cost))
}

// Whether, of three costs in a row, the second step is less than the first.
fn falls(before: i64, middle: i64, after: i64) -> bool
    ensures { Tells result ((after -ℤ middle) <ℤ (middle -ℤ before)) }
{
    let [before, middle, after] = [before as i128, middle as i128, after as i128];
    after - middle < middle - before
}

// The first place at which three costs in a row begin whose steps fall.
fn first_drop(costs: &[i64]) -> Option<usize>
    ensures { MatchOption result (NoneIs (Drops costs.now)) (Lowest (Drops costs.now)) }
{
    costs
        .windows(3)
        .position(|three| falls(three[0], three[1], three[2]))
}

impl Deck<'_> {
    // Whether a leg has no costs, goes past the latest minute, or lacks cards.
    fn is_malformed(&self, leg: usize) -> bool
        requires { (length self.now.heads.now ≤ 64) × (Leg self.now.heads.now leg) }
        ensures { Tells result (BadHead self.now.heads.now self.now.cards.now leg) }
    {
        let head = &self.heads[leg - 1];
        let needed = self.cards_before(leg) + usize::from(head.count);
        head.count == 0 || head.last_minute() > LATEST || self.cards.len() < needed
    }

    // The first malformed leg.
    fn first_malformed(&self) -> Option<usize>
        requires { length self.now.heads.now ≤ 64 }
        ensures { MatchOption result (NoneIs (Malformed self.now.heads.now self.now.cards.now)) (Lowest (Malformed self.now.heads.now self.now.cards.now)) }
    {
        // from 1 up to one more: for `find` over `..=` the library has no lemma, and `search` finds no proof
        (1..self.heads.len() + 1).find(|leg| self.is_malformed(*leg))
    }

    // Rows 5 and 6: how many legs there are, whether each is well formed, and whether cards are left over.
    fn check_shape(&self) -> Result<(), BookFault>
        ensures { MatchResult result (λ _. Clear (shape_rules self.now.heads.now self.now.cards.now)) (λ f. Broken (shape_rules self.now.heads.now self.now.cards.now) (told f) × (middle f ≡ None)) }
    {
        if self.heads.len() > MOST_LEGS {
            return Err(BookFault::TooManyLegs);
        }
        if let Some(leg) = self.first_malformed() {
            return Err(BookFault::BadLeg { leg: leg as u8 });
        }
        let past = self.heads.len() + 1;
        if self.cards_before(past) < self.cards.len() {
            return Err(BookFault::BadLeg { leg: past as u8 });
        }
        Ok(())
    }

    // All rows, in the order of the board.
    pub(crate) fn check(&self) -> Result<(), BookFault>
        ensures { MatchResult result (λ _. Clear (board self.now.heads.now self.now.cards.now)) (λ f. Broken (board self.now.heads.now self.now.cards.now) (told f) × TellsLowest self.now.heads.now self.now.cards.now f) }
    {
        self.check_shape()?;
        let shaped = Shaped { deck: *self };
        shaped.check_range()?;
        shaped.check_steps()
    }
}

impl Shaped<'_> {
    // Whether a leg has a cost beyond the range of cards.
    fn has_large(&self, leg: usize) -> bool
        requires { Leg self.now.deck.heads.now leg }
        ensures { Tells result (SomeLarge (costs_of self.now.deck.heads.now self.now.deck.cards.now leg)) }
    {
        some_large(self.costs(leg))
    }

    // The first leg with a cost out of range.
    fn first_large(&self) -> Option<usize>
        ensures { MatchOption result (NoneIs (TooLarge self.now.deck.heads.now self.now.deck.cards.now)) (Lowest (TooLarge self.now.deck.heads.now self.now.deck.cards.now)) }
    {
        // up to one more, as above
        (1..self.deck.heads.len() + 1).find(|leg| self.has_large(*leg))
    }

    // Row 7: whether some leg has a cost out of range.
    fn check_range(&self) -> Result<(), BookFault>
        ensures { MatchResult result (λ _. Holds (each (TooLarge self.now.deck.heads.now self.now.deck.cards.now) (row 7))) (λ f. Breaks (each (TooLarge self.now.deck.heads.now self.now.deck.cards.now) (row 7)) (told f) × (middle f ≡ None)) }
    {
        match self.first_large() {
            Some(leg) => Err(BookFault::OutOfRange { leg: leg as u8 }),
            None => Ok(()),
        }
    }

    // Row 8: whether some leg breaks the step law, and at which minute.
    fn check_steps(&self) -> Result<(), BookFault>
        ensures { MatchResult result (λ _. Holds (each (Falling self.now.deck.heads.now self.now.deck.cards.now) (row 8))) (λ f. Breaks (each (Falling self.now.deck.heads.now self.now.deck.cards.now) (row 8)) (told f) × TellsLowest self.now.deck.heads.now self.now.deck.cards.now f) }
    {
        for (k, head) in self.deck.heads.iter().enumerate() {
            if let Some(place) = first_drop(self.costs(k + 1)) {
                return Err(BookFault::FallingStep {
                    leg: k as u8 + 1,
                    minute: head.first + place as u16 + 1,
                });
            }
        }
        Ok(())
    }
}
