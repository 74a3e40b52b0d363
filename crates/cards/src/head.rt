// The heads of legs.
ghost use Rattle.std.specs.Prelude.{◌≡◌};
ghost use Rattle.cards.specs.Cards.{last_minute_of};

// A leg's first minute, and how many costs it has: one for each minute from the first on.
#[derive(Clone, Copy, PartialEq, Eq, Debug)]
pub struct Head {
    pub first: u16,
    pub count: u16,
}

impl Head {
    // The last minute of a leg that has costs.
    pub(crate) fn last_minute(self) -> usize
        ensures { result ≡ last_minute_of self }
    {
        (usize::from(self.first) + usize::from(self.count)).saturating_sub(1)
    }
}
