// Steps of a book: what one minute more costs, and which open leg has the least or the greatest.
ghost use Rattle.std.specs.Prelude.{◌≡◌, ℕ, ◌+◌, ◌<◌, ◌≤◌, List, length, MatchOption};
ghost use Rattle.books.specs.Meaning.{step};
ghost use Rattle.books.specs.declared.Ends.{Ends};
ghost use Rattle.solver.specs.Plans.{range};
ghost use Rattle.solver.specs.Steps.{Stepped, edge_of, edge_row, Steps, Held, AtHand, AtHandBut, Before, Chosen, NoneOpen, Leads};

use crate::way::Way;
use amounts::Amount;
use books::{Book, Ends};

// The ranges of the legs 1 to `legs`. Which steps are at hand is asked of the book, the way and the lent steps as well, and stands in
// the contracts. How long the array is stands beside it, since behind a field it is not known otherwise.
#[derive(Clone, Copy)]
pub(crate) struct Front<'a> {
    pub(crate) ranges: &'a [Ends; 65],
    pub(crate) legs: usize,
    ghost few: { (legs < 65) × (length ranges.now ≡ 65) },
}

// What one minute more than these costs on a leg.
pub(crate) fn step_from<B: Book>(book: &B, leg: usize, minute: u16) -> B::Cost
    requires { Stepped (B.meaning book.now) leg minute }
    ensures { B.Cost.Amount.row result ≡ step (B.meaning book.now) leg minute }
{
    book.keeps_laws();
    let after = book.cost(leg, minute + 1).unwrap();
    let before = book.cost(leg, minute).unwrap();
    after.checked_sub(before).unwrap()
}

// The leg that goes before, with its amount, of the best so far and one more.
fn better<W: Way, A: Amount>(best: Option<(usize, A)>, leg: usize, amount: A) -> (usize, A)
    ensures { Chosen (Before W.goes A.Amount.le) A.Amount.row best (leg, amount) result }
{
    let Some(old) = best else {
        return (leg, amount);
    };
    if W::ahead(amount, old.1) {
        (leg, amount)
    } else {
        old
    }
}

// Puts the step at the edge of a leg's range at hand, if there is room and the leg is open.
pub(crate) fn refresh<W: Way, B: Book>(book: &B, ends: Ends, leg: usize, steps: &mut [B::Cost])
    requires { ends.lo < ends.hi → Stepped (B.meaning book.now) leg (edge_of W.goes ends) }
    ensures { (es : List Ends) (k : ℕ) → range es leg ≡ ends → AtHandBut B.Cost.Amount.row (B.meaning book.now) W.goes es k leg steps.old → AtHand B.Cost.Amount.row (B.meaning book.now) W.goes es k steps.new }
{
    if leg < steps.len() && ends.lo < ends.hi {
        steps[leg] = step_from(book, leg, W::edge(ends));
    }
}

// The step at the edge of an open leg's range: the one at hand, or the book's.
fn edge_step<W: Way, B: Book>(book: &B, ends: Ends, leg: usize, steps: &[B::Cost]) -> B::Cost
    requires open { ends.lo < ends.hi }
    requires stepped { Stepped (B.meaning book.now) leg (edge_of W.goes ends) }
    requires hand { Held B.Cost.Amount.row (step (B.meaning book.now) leg (edge_of W.goes ends)) leg steps.now }
    ensures { B.Cost.Amount.row result ≡ step (B.meaning book.now) leg (edge_of W.goes ends) }
{
    if leg < steps.len() {
        return steps[leg];
    }
    step_from(book, leg, W::edge(ends))
}

impl Front<'_> {
    // Keeps at hand the steps at the edges of the open legs, as far as there is room.
    pub(crate) fn gather<W: Way, B: Book>(&self, book: &B, steps: &mut [B::Cost])
        requires { Steps (B.meaning book.now) W.goes self.now.ranges.now self.now.legs }
        ensures { AtHand B.Cost.Amount.row (B.meaning book.now) W.goes self.now.ranges.now self.now.legs steps.new }
    {
        let ranges = self.ranges;
        for (k, ends) in ranges[1..=self.legs].iter().enumerate() {
            refresh::<W, B>(book, *ends, k + 1, steps);
        }
    }

    // The open leg whose step goes before those of the others; none if none is open.
    pub(crate) fn leader<W: Way, B: Book>(&self, book: &B, steps: &[B::Cost]) -> Option<usize>
        requires { Steps (B.meaning book.now) W.goes self.now.ranges.now self.now.legs × AtHand B.Cost.Amount.row (B.meaning book.now) W.goes self.now.ranges.now self.now.legs steps.now }
        ensures { MatchOption result (NoneOpen self.now.ranges.now self.now.legs) (λ i. Leads (Before W.goes B.Cost.Amount.le) (edge_row (B.meaning book.now) W.goes self.now.ranges.now) self.now.ranges.now self.now.legs i) }
    {
        let ranges = self.ranges;
        let mut best = None;
        for (k, ends) in ranges[1..=self.legs].iter().enumerate() {
            if ends.lo < ends.hi {
                let step = edge_step::<W, B>(book, *ends, k + 1, steps);
                best = Some(better::<W, B::Cost>(best, k + 1, step));
            }
        }
        let found = best?;
        Some(found.0)
    }

    // The same where a leg is open.
    pub(crate) fn choose<W: Way, B: Book>(&self, book: &B, steps: &[B::Cost]) -> usize
        requires open { NoneOpen self.now.ranges.now self.now.legs → ⊥ }
        requires steps { Steps (B.meaning book.now) W.goes self.now.ranges.now self.now.legs × AtHand B.Cost.Amount.row (B.meaning book.now) W.goes self.now.ranges.now self.now.legs steps.now }
        ensures { Leads (Before W.goes B.Cost.Amount.le) (edge_row (B.meaning book.now) W.goes self.now.ranges.now) self.now.ranges.now self.now.legs result }
    {
        self.leader::<W, B>(book, steps).unwrap()
    }
}
