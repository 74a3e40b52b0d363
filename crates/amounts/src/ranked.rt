// Ranked amounts: any kind and then any other kind.
ghost use Rattle.std.specs.Prelude.{◌+◌, Some, codes};
ghost use Rattle.std.specs.Fmt.{◌++?◌};
ghost use Rattle.amounts.specs.Rows.{joined};
ghost use Rattle.amounts.specs.Orders.{ByRank};
ghost use Rattle.amounts.specs.JoinedRows.{ranked_order, joined-within, joined_ends};

use crate::Amount;
use std::fmt;

// An amount of one kind and behind it one of another: the first decides, and the second decides between equals.
#[derive(Clone, Copy)]
pub struct Ranked<A, B> {
    pub first: A,
    pub second: B,
}

impl<A: Amount, B: Amount> Amount for Ranked<A, B> {
    ghost places = { A.Amount.places + B.Amount.places };

    ghost row = { λ a. joined A.Amount.places (A.Amount.row a.first) (B.Amount.row a.second) };

    ghost le = { ByRank A.Amount.places A.Amount.le B.Amount.le };

    ghost order = { ranked_order A.Amount.order B.Amount.order };

    ghost ranged = { λ a. joined-within _ _ _ _ _ (A.Amount.ranged a.first) (B.Amount.ranged a.second) };

    ghost ended = { λ a. joined_ends _ _ _ _ (B.Amount.ended a.second) };

    fn zero() -> Self {
        Ranked {
            first: A::zero(),
            second: B::zero(),
        }
    }

    fn checked_add(self, other: Self) -> Option<Self> {
        let first = self.first.checked_add(other.first)?;
        let second = self.second.checked_add(other.second)?;
        Some(Ranked { first, second })
    }

    // apart from the sum: a function that is handed the parts' operation would ask for both parts' and be no shorter
    fn checked_sub(self, other: Self) -> Option<Self> {
        let first = self.first.checked_sub(other.first)?;
        let second = self.second.checked_sub(other.second)?;
        Some(Ranked { first, second })
    }

    fn at_most(self, other: Self) -> bool {
        if !self.first.at_most(other.first) {
            return false;
        }
        !other.first.at_most(self.first) || self.second.at_most(other.second)
    }
}

// The first part, and then the second.
impl<A: fmt::Display, B: fmt::Display> fmt::Display for Ranked<A, B> {
    ghost output = { λ a. A.output a.first ++? Some (codes " then ") ++? B.output a.second };

    fn fmt<W: fmt::Write>(&self, f: &mut fmt::Formatter<W>) -> fmt::Result {
        write!(f, "{} then {}", self.first, self.second)
    }
}
