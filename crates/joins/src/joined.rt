// Joined books: the legs of one book and then those of another of the same kind.
ghost use Rattle.std.specs.Prelude.{◌≡◌, ◌<◌, ◌≤◌, MatchOption};
ghost use Rattle.joins.specs.Joins.{followed, Has};

use books::{Book, Ends, MOST_LEGS};

// The legs of the first book and then those of the second; legs past the sixty-fourth are not in it.
#[derive(Drop)]
pub struct JoinedBook<L, R> {
    first: L,
    second: R,
}

// Which of the two books has a leg, and the leg's number there.
enum Part {
    First(usize),
    Second(usize),
}

impl<L: Book, R: Book<Cost = L::Cost>> JoinedBook<L, R> {
    // The two books, one behind the other.
    pub fn new(first: L, second: R) -> Self
        ensures first { result.first ≡ first }
        ensures second { result.second ≡ second }
    {
        JoinedBook { first, second }
    }

    // The part that has a leg; absent exactly if the leg lies past the sixty-fourth.
    fn part(&self, leg: usize) -> Option<Part>
        ensures { MatchOption result (64 < leg) (λ p. (leg ≤ 64) × Has (L.meaning self.now.first) leg p) }
    {
        if leg > MOST_LEGS {
            return None;
        }
        let before = self.first.legs();
        if leg <= before {
            Some(Part::First(leg))
        } else {
            Some(Part::Second(leg - before))
        }
    }
}

impl<L: Book, R: Book<Cost = L::Cost>> Book for JoinedBook<L, R> {
    type Cost = L::Cost;

    ghost meaning = { λ b. followed (L.Book.meaning b.first) (R.Book.meaning b.second) };

    fn keeps_laws(&self) {
        self.first.keeps_laws();
        self.second.keeps_laws();
    }

    fn legs(&self) -> usize {
        self.first.keeps_laws();
        self.second.keeps_laws();
        (self.first.legs() + self.second.legs()).min(MOST_LEGS)
    }

    fn ends(&self, leg: usize) -> Option<Ends> {
        match self.part(leg)? {
            Part::First(leg) => self.first.ends(leg),
            Part::Second(leg) => self.second.ends(leg),
        }
    }

    fn cost(&self, leg: usize, minutes: u16) -> Option<L::Cost> {
        match self.part(leg)? {
            Part::First(leg) => self.first.cost(leg, minutes),
            Part::Second(leg) => self.second.cost(leg, minutes),
        }
    }
}
