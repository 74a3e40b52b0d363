// The kinds of amount with one place: so many of a unit, in the order of numbers; kilograms and cents.
ghost use Rattle.std.specs.Prelude.{◌≡◌, ℕ, List, ◌++◌, Some, codes};
ghost use Rattle.std.specs.Fmt.{signed_decimal};
ghost use Rattle.amounts.specs.Rows.{single, nearest, Exactly};
ghost use Rattle.amounts.specs.Orders.{ByNumber};
ghost use Rattle.amounts.specs.Singles.{by_number_order, nearest_in_range, single_ends};

use crate::Amount;
use std::fmt;
use std::marker::PhantomData;

// The greatest number in a place of an amount, 2^47; the least is its negative.
const LIMIT: i64 = 0x8000_0000_0000;

// What an amount with one place counts.
pub trait Unit: Copy {
    // the name that is printed behind a number
    ghost printed: { List ℕ };

    // The unit's name as it is printed.
    fn name() -> &'static str
        ensures { result.now ≡ printed };
}

// The unit of kilograms.
#[derive(Clone, Copy)]
pub struct Kilogram;

impl Unit for Kilogram {
    ghost printed = { codes "kg" };

    fn name() -> &'static str {
        "kg"
    }
}

// The unit of cents.
#[derive(Clone, Copy)]
pub struct Cent;

impl Unit for Cent {
    ghost printed = { codes "cents" };

    fn name() -> &'static str {
        "cents"
    }
}

// An amount of some unit. A field beyond the range is read as the nearer end of it by every operation.
#[derive(Clone, Copy)]
pub struct Single<U> {
    value: i64,
    unit: PhantomData<U>,
}

// An amount in kilograms.
pub type Kilograms = Single<Kilogram>;

// An amount in cents.
pub type Cents = Single<Cent>;

impl<U> Single<U> {
    // So many of the unit, or the nearer end of the range.
    pub fn new(value: i64) -> Self
        ensures { result.value ≡ nearest value }
    {
        Single {
            value: value.clamp(-LIMIT, LIMIT),
            unit: PhantomData,
        }
    }

    // How many of the unit.
    pub fn value(self) -> i64
        ensures { result ≡ nearest self.value }
    {
        self.value.clamp(-LIMIT, LIMIT)
    }

    // Exactly so many of the unit; absent exactly if that lies beyond the range.
    fn exactly(value: i64) -> Option<Self>
        ensures { Exactly 1 (λ a. single (nearest a.value)) (single value) result }
    {
        if !(-LIMIT..=LIMIT).contains(&value) {
            return None;
        }
        Some(Single::new(value))
    }
}

impl<U: Unit> Amount for Single<U> {
    ghost places = { 1 };

    ghost row = { λ a. single (nearest a.value) };

    ghost le = { ByNumber };

    ghost order = { by_number_order };

    ghost ranged = { λ a. nearest_in_range a.value };

    ghost ended = { λ a. single_ends _ };

    #[tactic(auto, using(crate::specs::Singles::single_zero))]
    fn zero() -> Self {
        Single::new(0)
    }

    fn checked_add(self, other: Self) -> Option<Self> {
        Single::exactly(self.value() + other.value())
    }

    fn checked_sub(self, other: Self) -> Option<Self> {
        Single::exactly(self.value() - other.value())
    }

    fn at_most(self, other: Self) -> bool {
        self.value() <= other.value()
    }
}

// The number and then the unit's name, as in `12 kg`.
impl<U: Unit> fmt::Display for Single<U> {
    ghost output = { λ a. Some (signed_decimal (nearest a.value) ++ (codes " " ++ U.printed)) };

    fn fmt<W: fmt::Write>(&self, f: &mut fmt::Formatter<W>) -> fmt::Result {
        write!(f, "{} {}", self.value(), U::name())
    }
}

#[cfg(test)]
mod tests {
    use super::*;
    use std::test::Fail;

    // A field beyond the range, which no call makes, is read as the nearer end by every operation.
    #[test]
    fn beyond_the_range(rt: HostRuntime) -> Result<(), Fail> {
        let high = Kilograms {
            value: i64::MAX,
            unit: PhantomData,
        };
        let low = Kilograms {
            value: i64::MIN,
            unit: PhantomData,
        };
        assert_eq!(rt; high.value(), 140_737_488_355_328);
        assert_eq!(rt; low.value(), -140_737_488_355_328);
        assert!(rt; high.at_most(Kilograms::new(140_737_488_355_328)));
        assert!(rt; Kilograms::new(-140_737_488_355_328).at_most(low));
        let zero = high.checked_add(low).ok_or("absent")?;
        assert_eq!(rt; zero.value(), 0);
        Ok(())
    }
}
