// The cost of minutes in a list: the sum over the legs.
ghost use Rattle.std.specs.Prelude.{◌≡◌, length, MatchOption};
ghost use Rattle.optimum.specs.Rotation.{spent};
ghost use Rattle.states.specs.Costs.{flown, AllPriced};

use amounts::Amount;
use books::Book;

// What these minutes cost on the legs 1, 2 and so on; absent exactly if the book has no cost for one of them.
pub(crate) fn cost_of<B: Book>(book: &B, minutes: &[u16]) -> Option<B::Cost>
    ensures { MatchOption result (AllPriced (B.meaning book.now) minutes.now → ⊥) (λ a. AllPriced (B.meaning book.now) minutes.now × (B.Cost.Amount.row a ≡ spent (B.meaning book.now) (flown minutes.now) (length minutes.now))) }
{
    book.keeps_laws();
    // a loop over the slice of the minutes, and no chain: it is how the sum is defined, leg after leg
    let mut total = B::Cost::zero();
    for (k, m) in minutes.iter().enumerate() {
        let cost = book.cost(k + 1, *m)?;
        total = total.checked_add(cost)?;
    }
    Some(total)
}
