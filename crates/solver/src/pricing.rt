// Prices of a cheapest timing: one for each leg, such that the price rule holds.
ghost use Rattle.std.specs.Prelude.{◌≡◌, ℕ, ◌+◌, ◌<◌, ◌≤◌, ◌⊎◌, slice_index};
ghost use Rattle.books.specs.Meaning.{IsLeg};
ghost use Rattle.optimum.specs.Rotation.{reached};
ghost use Rattle.optimum.specs.Prices.{Named, PriceRule, worth};
ghost use Rattle.solver.specs.Plans.{at, settings, price_at};
ghost use Rattle.solver.specs.Pricing.{Timed, Floor, Fair, FairUp, Rises, Falls};

use crate::course::Course;
use crate::plan::Plan;
use crate::steps::{Front, step_from};
use crate::way::Raise;
use amounts::Amount;
use books::Book;
use optimum::Price;

// The price that is worth nothing.
const ZERO: Price = Price { leg: 0, minute: 0 };

// The amount that a price is worth.
fn value<B: Book>(book: &B, price: Price) -> B::Cost
    requires { Named (B.meaning book.now) price }
    ensures { B.Cost.Amount.row result ≡ worth (B.meaning book.now) price }
{
    if price.leg == 0 {
        return B::Cost::zero();
    }
    step_from(book, price.leg as usize, price.minute)
}

// The greater of two prices.
fn greater<B: Book>(book: &B, old: Price, new: Price) -> Price
    requires { Named (B.meaning book.now) old × Named (B.meaning book.now) new }
    ensures { ((result ≡ old) × B.Cost.Amount.le (worth (B.meaning book.now) new) (worth (B.meaning book.now) old)) ⊎ ((result ≡ new) × B.Cost.Amount.le (worth (B.meaning book.now) old) (worth (B.meaning book.now) new)) }
{
    if value(book, new).at_most(value(book, old)) {
        old
    } else {
        new
    }
}

// What is known of the minutes stands in the contracts, and not in a struct of book, plan and minutes: a ghost field must have
// one proof at most, and that is not known of an order of amounts.

// The least next step of all legs that can be longer, as a price; zero if there is none.
fn base<B: Book>(book: &B, plan: &Plan, minutes: &[u16; 65], steps: &mut [B::Cost]) -> Price
    requires { Timed (B.meaning book.now) B.Cost.Amount.le plan.now minutes.now }
    ensures { Floor (B.meaning book.now) B.Cost.Amount.le (settings plan.now) (at minutes.now) result }
{
    book.keeps_laws();
    let front = Front {
        ranges: &plan.above(minutes),
        legs: book.legs(),
    };
    front.gather::<Raise, B>(book, steps);
    let Some(leg) = front.leader::<Raise, B>(book, steps) else {
        return ZERO;
    };
    Price {
        leg: leg as u8,
        minute: minutes[leg],
    }
}

// The first price of a leg: the greater of the base and the step that the leg took last.
fn first_price<B: Book>(
    book: &B,
    plan: &Plan,
    minutes: &[u16; 65],
    base: Price,
    leg: usize,
) -> Price
    requires { IsLeg (B.meaning book.now) leg × Timed (B.meaning book.now) B.Cost.Amount.le plan.now minutes.now × Floor (B.meaning book.now) B.Cost.Amount.le (settings plan.now) (at minutes.now) base }
    ensures { Fair (B.meaning book.now) B.Cost.Amount.le (settings plan.now) (at minutes.now) leg result }
{
    book.keeps_laws();
    if minutes[leg] <= plan.bounds[leg].lo {
        return base;
    }
    let last = Price {
        leg: leg as u8,
        minute: minutes[leg] - 1,
    };
    greater(book, base, last)
}

// The first prices of all legs.
fn first_prices<B: Book>(book: &B, plan: &Plan, minutes: &[u16; 65], base: Price) -> [Price; 65]
    requires { Timed (B.meaning book.now) B.Cost.Amount.le plan.now minutes.now × Floor (B.meaning book.now) B.Cost.Amount.le (settings plan.now) (at minutes.now) base }
    ensures { FairUp (B.meaning book.now) B.Cost.Amount.le (settings plan.now) (at minutes.now) (B.meaning book.now).legs result }
{
    book.keeps_laws();
    let mut prices = [base; 65];
    for (k, price) in prices[1..=book.legs()].iter_mut().enumerate() {
        *price = first_price(book, plan, minutes, base, k + 1);
    }
    prices
}

impl Course<'_> {
    // When each stop is reached.
    fn arrivals(&self, minutes: &[u16; 65]) -> [usize; 65]
        ensures { (k : ℕ) → k ≤ self.now.legs → slice_index result k ≡ reached (at minutes.now) k }
    {
        let mut arrivals = [0; 65];
        let mut total = 0;
        for (k, arrival) in arrivals[1..=self.legs].iter_mut().enumerate() {
            total += minutes[k + 1] as usize;
            *arrival = total;
        }
        arrivals
    }
}

// Carries prices to the right over every stop that is reached after its window opens: no price falls there.
fn carry_right<B: Book>(book: &B, plan: &Plan, minutes: &[u16; 65], prices: &mut [Price; 65])
    requires { FairUp (B.meaning book.now) B.Cost.Amount.le (settings plan.now) (at minutes.now) (B.meaning book.now).legs prices.old }
    ensures fair { FairUp (B.meaning book.now) B.Cost.Amount.le (settings plan.now) (at minutes.now) (B.meaning book.now).legs prices.new }
    ensures rises { (k : ℕ) → 1 ≤ k → k < (B.meaning book.now).legs → Rises (B.meaning book.now) B.Cost.Amount.le (settings plan.now) (at minutes.now) prices.new k }
{
    let course = Course::over(book, plan);
    let arrivals = course.arrivals(minutes);
    // by index: each price is made of its neighbour's, and one kept beside a loop over the slice takes two lines more
    for k in 1..course.legs {
        if (course.window(k).lo as usize) < arrivals[k] {
            prices[k + 1] = greater(book, prices[k + 1], prices[k]);
        }
    }
}

// Carries prices to the left over every stop that is reached before its window shuts: no price rises there. Apart from the
// carry to the right: it goes the other way, and it has to keep what that one has reached.
fn carry_left<B: Book>(book: &B, plan: &Plan, minutes: &[u16; 65], prices: &mut [Price; 65])
    requires fair { FairUp (B.meaning book.now) B.Cost.Amount.le (settings plan.now) (at minutes.now) (B.meaning book.now).legs prices.old }
    requires rises { (k : ℕ) → 1 ≤ k → k < (B.meaning book.now).legs → Rises (B.meaning book.now) B.Cost.Amount.le (settings plan.now) (at minutes.now) prices.old k }
    ensures fair { FairUp (B.meaning book.now) B.Cost.Amount.le (settings plan.now) (at minutes.now) (B.meaning book.now).legs prices.new }
    ensures rises { (k : ℕ) → 1 ≤ k → k < (B.meaning book.now).legs → Rises (B.meaning book.now) B.Cost.Amount.le (settings plan.now) (at minutes.now) prices.new k }
    ensures falls { (k : ℕ) → 1 ≤ k → k < (B.meaning book.now).legs → Falls (B.meaning book.now) B.Cost.Amount.le (settings plan.now) (at minutes.now) prices.new k }
{
    let course = Course::over(book, plan);
    let arrivals = course.arrivals(minutes);
    // by index: from the last to the first, and after `iter_mut().rev()` a proof knows only how many prices there are
    for k in (1..course.legs).rev() {
        if arrivals[k] < course.window(k).hi as usize {
            prices[k] = greater(book, prices[k], prices[k + 1]);
        }
    }
}

// Prices of a cheapest timing, one for each leg, that keep the price rule.
pub(crate) fn prices<B: Book>(
    book: &B,
    plan: &Plan,
    minutes: &[u16; 65],
    steps: &mut [B::Cost],
) -> [Price; 65]
    requires { Timed (B.meaning book.now) B.Cost.Amount.le plan.now minutes.now }
    ensures { PriceRule (B.meaning book.now) B.Cost.Amount.le (settings plan.now) (at minutes.now) (price_at result) }
{
    book.keeps_laws();
    let base = base(book, plan, minutes, steps);
    let mut prices = first_prices(book, plan, minutes, base);
    carry_right(book, plan, minutes, &mut prices);
    carry_left(book, plan, minutes, &mut prices);
    prices
}
