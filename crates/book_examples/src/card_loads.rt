// Examples of loading: each row of the board at its edges, the order of the rows, and what a place holds afterwards.
use board::{Layer, Refusal};
use books::{Book, BookFault};
use cards::{CardBook, Head, load};
use std::test::Fail;

const LIMIT: i64 = 0x100_0000_0000;

// A leg of so many costs from a first minute.
fn head(first: u16, count: u16) -> Head {
    Head { first, count }
}

// What loading these tells, if it refuses them.
fn refusal<'a>(heads: &'a [Head], cards: &'a [i64]) -> Option<Refusal> {
    let mut book = CardBook::empty();
    load(&mut book, heads, cards).err().map(Refusal::from)
}

// A row of the book layer.
fn row(number: u8, leg: u8) -> Option<Refusal> {
    let layer = Layer::Book;
    Some(Refusal { number, layer, leg })
}

// The kilograms of some minutes on a leg.
fn kilograms(book: &CardBook<'_>, leg: usize, minutes: u16) -> Option<i64> {
    Some(book.cost(leg, minutes)?.value())
}

#[test]
fn legs_and_minutes_at_their_edges(rt: HostRuntime) {
    let heads = [head(0, 1); 65];
    let cards = [0; 65];
    assert_eq!(rt; refusal(&heads[0..64], &cards[0..64]), None);
    assert_eq!(rt; refusal(&heads, &cards), row(5, 65));
    assert_eq!(rt; refusal(&[head(4094, 2)], &[1, 2]), None);
    assert_eq!(rt; refusal(&[head(4094, 3)], &[1, 2, 3]), row(6, 1));
    assert_eq!(rt; refusal(&[head(4096, 1)], &[1]), row(6, 1));
    assert_eq!(rt; refusal(&[head(5, 1), head(5, 0)], &[1]), row(6, 2));
}

#[test]
fn cards_missing_and_left_over(rt: HostRuntime) {
    let heads = [head(5, 2), head(5, 2)];
    assert_eq!(rt; refusal(&heads, &[1, 2, 3, 4]), None);
    assert_eq!(rt; refusal(&heads, &[1, 2, 3]), row(6, 2));
    assert_eq!(rt; refusal(&heads, &[1, 2, 3, 4, 5]), row(6, 3));
}

#[test]
fn costs_at_their_edges(rt: HostRuntime) {
    let heads = [head(5, 1), head(5, 1)];
    assert_eq!(rt; refusal(&heads, &[LIMIT, -LIMIT]), None);
    assert_eq!(rt; refusal(&heads, &[LIMIT, -LIMIT - 1]), row(7, 2));
    assert_eq!(rt; refusal(&heads, &[LIMIT + 1, -LIMIT - 1]), row(7, 1));
    assert_eq!(rt; refusal(&[head(5, 1), head(5, 0)], &[LIMIT + 1]), row(6, 2));
}

#[test]
fn falling_steps_tell_the_middle_minute(rt: HostRuntime) -> Result<(), Fail> {
    let heads = [head(50, 3)];
    let mut book = CardBook::empty();
    match load(&mut book, &heads, &[9, 4, -2]) {
        Err(BookFault::FallingStep { leg, minute }) => {
            assert_eq!(rt; leg, 1);
            assert_eq!(rt; minute, 51);
        }
        _ => return Err(Fail::new("the step law is broken")),
    }
    assert_eq!(rt; book.legs(), 0);
    assert_eq!(rt;
        refusal(&[head(50, 3), head(7, 3)], &[9, 4, -1, 9, 4, -2]),
        row(8, 2)
    );
    Ok(())
}

#[test]
fn a_refused_load_keeps_the_book(rt: HostRuntime) -> Result<(), Fail> {
    let heads = [head(50, 3), head(7, 2)];
    let cards = [9, 4, -1, 20, 30];
    let empty_leg = [head(1, 0)];
    let mut book = CardBook::empty();
    load(&mut book, &heads, &cards).ok().ok_or("refused")?;
    assert!(rt; load(&mut book, &empty_leg, &[]).is_err());
    assert_eq!(rt; book.legs(), 2);
    assert_eq!(rt; kilograms(&book, 1, 52), Some(-1));
    assert_eq!(rt; kilograms(&book, 2, 8), Some(30));
    assert_eq!(rt; kilograms(&book, 1, 53), None);
    assert_eq!(rt; kilograms(&book, 2, 6), None);
    assert_eq!(rt; kilograms(&book, 3, 7), None);
    Ok(())
}
