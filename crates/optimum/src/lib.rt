// The mathematics of rotations: what timings, cheapest timings and prices are, and the lemmas about them (in proofs/).
#![tactic(auto)]

ghost use Rattle.std.specs.Prelude.{ℕ};
ghost use Rattle.amounts.specs.Rows.{Same};
ghost use Rattle.books.specs.Meaning.{Meaning};
ghost use Rattle.optimum.specs.Prices.{PriceRule};
ghost use Rattle.optimum.specs.Rotation.{Settings, Timing, Cheapest, cost_of_timing};

use amounts::Amount;

// The price of a minute, named by a leg and a minute of the book: what one minute more than that costs on that leg.
// Leg 0 with minute 0 names the price zero: it is no `Option`, since a price is told as a leg and a minute, zero too.
#[derive(Clone, Copy, PartialEq, Eq, Debug)]
pub struct Price {
    pub leg: u8,
    pub minute: u16,
}

// Why prices are told. It runs nothing, and its contract says of every book whose costs are of the kind A: a timing with
// prices that keep the rule is cheapest, and all cheapest timings of the same settings cost the same.
pub fn price_laws<A: Amount>()
    ensures certified { (b : Meaning) (s : Settings) (x : ℕ → ℕ) (p : ℕ → Price) → Timing b.legs s x → PriceRule b A.Amount.le s x p → Cheapest b A.Amount.le s x }
    ensures agreed { (b : Meaning) (s : Settings) (x y : ℕ → ℕ) → Cheapest b A.Amount.le s x → Cheapest b A.Amount.le s y → Same A.Amount.places (cost_of_timing b x) (cost_of_timing b y) }
{}
