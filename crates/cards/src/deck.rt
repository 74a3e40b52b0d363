// Heads of legs together with their cards, and where the cards of a leg stand.
ghost use Rattle.std.specs.Prelude.{◌≡◌, ◌+◌, ◌*◌, ◌≤◌, length, MatchOption};
ghost use Rattle.board.specs.Rules.{Clear};
ghost use Rattle.cards.specs.Cards.{Leg, head, offset, costs_of, shape_rules};

use crate::head::Head;

// Lent heads and cards; the cards of the legs follow each other in the order of the heads. Two lists, of unlike lengths, are what is
// loaded.
#[derive(Clone, Copy)]
pub(crate) struct Deck<'a> {
    pub(crate) heads: &'a [Head],
    pub(crate) cards: &'a [i64],
}

// That a leg is one of the deck is a fact about the leg, asked of single calls. That there are at most 64 is asked before the deck is
// known to be well formed.
impl Deck<'_> {
    // The head of a leg, counted from 1; absent exactly if there is no such leg.
    pub(crate) fn head(&self, leg: usize) -> Option<Head>
        ensures { MatchOption result (Leg self.now.heads.now leg → ⊥) (λ h. Leg self.now.heads.now leg × (h ≡ head self.now.heads.now leg)) }
    {
        self.heads.get(leg.checked_sub(1)?).copied()
    }

    // How many cards stand before those of a leg, or in all where it is one past the last.
    pub(crate) fn cards_before(&self, leg: usize) -> usize
        requires { (length self.now.heads.now ≤ 64) × ((1 ≤ leg) × (leg ≤ length self.now.heads.now + 1)) }
        ensures sum { result ≡ offset self.now.heads.now leg }
        ensures few { result ≤ 64 * 65535 }
    {
        self.heads[..leg - 1]
            .iter()
            .map(|head| usize::from(head.count))
            .sum()
    }
}

// A deck whose legs are well formed, with no card left over.
#[derive(Clone, Copy)]
pub(crate) struct Shaped<'a> {
    pub(crate) deck: Deck<'a>,
    ghost shaped: { Clear (shape_rules deck.heads.now deck.cards.now) },
}

impl<'a> Shaped<'a> {
    // The costs of a leg: its own part of the cards.
    pub(crate) fn costs(&self, leg: usize) -> &'a [i64]
        requires { Leg self.now.deck.heads.now leg }
        ensures { result.now ≡ costs_of self.now.deck.heads.now self.now.deck.cards.now leg }
    {
        let start = self.deck.cards_before(leg);
        let count = usize::from(self.deck.heads[leg - 1].count);
        &self.deck.cards[start..start + count]
    }
}
