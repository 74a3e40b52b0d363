// The card book: what it holds, and how it is loaded.
ghost use Rattle.std.specs.Prelude.{◌≡◌, [], MatchResult};
ghost use Rattle.board.specs.Rules.{Clear, Broken};
ghost use Rattle.books.specs.Faults.{told};
ghost use Rattle.cards.specs.Cards.{book_of, TellsLowest, cost_rules, board};

use crate::deck::{Deck, Shaped};
use crate::head::Head;
use amounts::Kilograms;
use books::{Book, BookFault, Ends};

// A book of lent heads and cards. Whatever a card book holds breaks no rule of loading, so its steps never fall.
#[derive(Clone, Copy)]
pub struct CardBook<'a> {
    shaped: Shaped<'a>,
    ghost lawful: { Clear (cost_rules shaped.deck.heads.now shaped.deck.cards.now) },
}

impl CardBook<'_> {
    // The book without legs.
    pub fn empty() -> Self
        ensures { (result.shaped.deck.heads.now ≡ []) × (result.shaped.deck.cards.now ≡ []) }
    {
        let deck = Deck {
            heads: &[],
            cards: &[],
        };
        CardBook {
            shaped: Shaped { deck },
        }
    }
}

// Puts the book of these heads and cards into the place, or refuses, and the place keeps what it held: that is why it fills a
// place, and answers no book.
// A refusal tells the first row of the board that is broken, in it the lowest leg, and of a falling step the lowest minute.
pub fn load<'a>(
    place: &mut CardBook<'a>,
    heads: &'a [Head],
    cards: &'a [i64],
) -> Result<(), BookFault>
    ensures told { MatchResult result (λ _. Clear (board heads.now cards.now)) (λ f. Broken (board heads.now cards.now) (told f) × TellsLowest heads.now cards.now f) }
    ensures place { MatchResult result (λ _. (place.new.shaped.deck.heads.now ≡ heads.now) × (place.new.shaped.deck.cards.now ≡ cards.now)) (λ _. place.new ≡ place.old) }
{
    let deck = Deck { heads, cards };
    deck.check()?;
    *place = CardBook {
        shaped: Shaped { deck },
    };
    Ok(())
}

impl Book for CardBook<'_> {
    type Cost = Kilograms;

    ghost meaning = { λ b. book_of b.shaped.deck.heads.now b.shaped.deck.cards.now };

    fn keeps_laws(&self) {}

    fn legs(&self) -> usize {
        self.shaped.deck.heads.len()
    }

    fn ends(&self, leg: usize) -> Option<Ends> {
        let head = self.shaped.deck.head(leg)?;
        let hi = head.last_minute() as u16;
        Some(Ends { lo: head.first, hi })
    }

    fn cost(&self, leg: usize, minutes: u16) -> Option<Kilograms> {
        let ends = self.ends(leg)?;
        if !ends.contains(minutes) {
            return None;
        }
        let cost = self.shaped.costs(leg)[usize::from(minutes - ends.lo)];
        Some(Kilograms::new(cost))
    }
}
