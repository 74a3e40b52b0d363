// The books of the samples.
ghost use Rattle.std.specs.Prelude.{◌≡◌, ◌<◌, ◌≤◌, MatchResult};
ghost use Rattle.std.specs.Option as options;
ghost use Rattle.amounts.specs.Rows.{single, nearest};
ghost use Rattle.charges.specs.Charges.{rate};
ghost use Rattle.books.specs.Faults.{told, row};
ghost use Rattle.books.specs.Formula.{formulas};
ghost use Rattle.optimum.specs.Prices as prices;
ghost use Rattle.samples.specs.Samples.{leg};
ghost use Rattle.sample_run.specs.Books.{LegsOf};

use amounts::{Amount, Kilograms};
use books::{Book, BookFault, FormulaBook, FormulaLeg};
use charges::ChargeBook;
use optimum::Price;

// A book of some legs, each flown in 50 to 70 minutes, that cost q kilograms times the square of their distance from 60.
// Refused exactly if there are more than 64 legs.
pub(crate) fn formula_book(q: u16, legs: u8) -> Result<FormulaBook, BookFault>
    ensures { MatchResult result (λ b. (legs ≤ 64) × LegsOf (formulas b.legs.items) legs (leg q)) (λ f. (64 < legs) × (told f ≡ row 5 65)) }
{
    let mut book = FormulaBook::new();
    for _ in 0..legs {
        book.add_leg(FormulaLeg {
            q,
            t: 60,
            r: 0,
            lo: 50,
            hi: 70,
        })?;
    }
    Ok(book)
}

// Two such legs, at 3 cents a minute on leg 1 and 2 cents a minute on leg 2.
pub(crate) fn charge_book(q: u16) -> ChargeBook<FormulaBook>
    ensures { LegsOf (formulas result.below.legs.items) 2 (leg q) × (rate result.rates.values 1 ≡ 3) × (rate result.rates.values 2 ≡ 2) }
{
    let mut book = ChargeBook::new(formula_book(q, 2).unwrap());
    book.set_rate(1, 3).unwrap();
    book.set_rate(2, 2).unwrap();
    book
}

// What a price is worth in a book: what one minute more than the price names costs on its leg, and zero on leg 0. Absent only if
// the price names neither zero nor a step of the book. Apart from the solver's own, which is asked of prices of its book alone.
pub(crate) fn worth(book: &FormulaBook, price: Price) -> Option<Kilograms>
    ensures { options.MatchOption result (prices.Named (formulas book.now.legs.items) price → ⊥) (λ a. single (nearest a.value) ≡ prices.worth (formulas book.now.legs.items) price) }
{
    if price.leg == 0 {
        return Some(Kilograms::zero());
    }
    book.keeps_laws();
    let after = book.cost(price.leg as usize, price.minute.checked_add(1)?)?;
    let before = book.cost(price.leg as usize, price.minute)?;
    after.checked_sub(before)
}
