// Examples at the edges of the books' ranges.
use board::{Layer, Refusal, UnknownLayer};
use books::{Book, BookFault, Ends, FormulaBook, FormulaLeg};
use charges::ChargeBook;
use joins::JoinedBook;
use std::test::Fail;

// A leg that costs nothing, of the given ends.
fn free(lo: u16, hi: u16) -> FormulaLeg {
    FormulaLeg {
        lo,
        hi,
        ..FormulaLeg::default()
    }
}

// What a refused leg or rate tells.
fn refused(res: Result<(), BookFault>) -> Result<(u8, u8), Fail> {
    match res {
        Ok(()) => Err(Fail::new("granted")),
        Err(fault) => {
            let refusal = Refusal::from(fault);
            Ok((refusal.number, refusal.leg))
        }
    }
}

// The dearest minute of all: 65,535 kilograms times the square of 4,095, and 2^29.
#[test]
fn dearest_minute(rt: HostRuntime) -> Result<(), Fail> {
    let mut book = FormulaBook::new();
    book.add_leg(FormulaLeg {
        q: 65535,
        t: 0,
        r: 536_870_912,
        lo: 0,
        hi: 4095,
    })?;
    book.add_leg(FormulaLeg {
        q: 1,
        t: 60,
        r: -536_870_912,
        lo: 50,
        hi: 70,
    })?;
    assert_eq!(rt; book.legs(), 2);
    assert_eq!(rt;
        book.cost(1, 4095).ok_or("absent")?.value(),
        1_099_494_924_287
    );
    assert_eq!(rt; book.cost(2, 50).ok_or("absent")?.value(), -536_870_812);
    assert!(rt; book.cost(2, 49).is_none() && book.cost(2, 71).is_none());
    assert!(rt; book.ends(0).is_none() && book.ends(3).is_none());
    assert_eq!(rt; book.ends(2).ok_or("absent")?, Ends { lo: 50, hi: 70 });
    Ok(())
}

// Each row at its edge, and the order of the rows.
#[test]
fn refused_legs(rt: HostRuntime) -> Result<(), Fail> {
    let mut book = FormulaBook::new();
    book.add_leg(free(0, 4095))?;
    assert_eq!(rt; refused(book.add_leg(free(9, 8)))?, (6, 2));
    assert_eq!(rt; refused(book.add_leg(free(9, 4096)))?, (6, 2));
    let late = FormulaLeg {
        t: 4096,
        ..free(8, 9)
    };
    assert_eq!(rt; refused(book.add_leg(late))?, (6, 2));
    let dear = FormulaLeg {
        r: 536_870_913,
        ..free(8, 9)
    };
    assert_eq!(rt; refused(book.add_leg(dear))?, (7, 2));
    let both = FormulaLeg {
        r: -536_870_913,
        ..free(9, 8)
    };
    assert_eq!(rt; refused(book.add_leg(both))?, (6, 2));
    assert_eq!(rt; book.legs(), 1);
    Ok(())
}

#[test]
fn full_book(rt: HostRuntime) -> Result<(), Fail> {
    let mut book = FormulaBook::new();
    for _ in 0..64 {
        book.add_leg(free(1, 2))?;
    }
    assert_eq!(rt; refused(book.add_leg(free(9, 8)))?, (5, 65));
    assert_eq!(rt; book.legs(), 64);
    Ok(())
}

// Legs of no kilograms at 3 and 65,535 cents a minute.
#[test]
fn charges(rt: HostRuntime) -> Result<(), Fail> {
    let mut book = ChargeBook::new(FormulaBook::new());
    book.add_leg(free(50, 70))?;
    book.set_rate(1, 3)?;
    book.set_rate(64, 65535)?;
    assert_eq!(rt; refused(book.set_rate(0, 1))?, (11, 0));
    assert_eq!(rt; refused(book.set_rate(65, 1))?, (11, 65));
    let cost = book.cost(1, 70).ok_or("absent")?;
    assert_eq!(rt; (cost.first.value(), cost.second.value()), (0, 210));
    assert_eq!(rt; book.below().legs(), 1);
    Ok(())
}

#[test]
fn joined_legs(rt: HostRuntime) -> Result<(), Fail> {
    let mut first = FormulaBook::new();
    let mut second = FormulaBook::new();
    first.add_leg(free(1, 2))?;
    for _ in 0..64 {
        second.add_leg(FormulaLeg { r: 7, ..free(3, 4) })?;
    }
    let book = JoinedBook::new(first, second);
    assert_eq!(rt; book.legs(), 64);
    assert_eq!(rt; book.ends(1).ok_or("absent")?.hi, 2);
    assert_eq!(rt; book.cost(64, 3).ok_or("absent")?.value(), 7);
    assert!(rt; book.ends(65).is_none() && book.cost(65, 3).is_none());
    Ok(())
}

// A charge book over a charge book: kilograms, then the cents of the one below, then those of the one above.
#[test]
fn charges_over_charges(rt: HostRuntime) -> Result<(), Fail> {
    let mut below = ChargeBook::new(FormulaBook::new());
    below.add_leg(FormulaLeg {
        r: 7,
        ..free(50, 70)
    })?;
    below.set_rate(1, 3)?;
    let mut book = ChargeBook::new(below);
    book.set_rate(1, 2)?;
    let cost = book.cost(1, 60).ok_or("absent")?;
    assert_eq!(rt; cost.first.first.value(), 7);
    assert_eq!(rt;
        (cost.first.second.value(), cost.second.value()),
        (180, 120)
    );
    Ok(())
}

#[test]
fn refusals_in_words(rt: HostRuntime) -> Result<(), Fail> {
    let full = format!(in rt.alloc(); "{}", Refusal::from(BookFault::TooManyLegs))?;
    assert_eq!(rt; full.as_str(), "refused 5, leg 65");
    Ok(())
}

// Each layer is read back from its number, and no other number is a layer's.
#[test]
fn layers_by_number(rt: HostRuntime) {
    for layer in [Layer::Frame, Layer::Book, Layer::Sheet] {
        assert_eq!(rt; Layer::try_from(u8::from(layer)), Ok(layer));
    }
    assert_eq!(rt; Layer::try_from(4), Err(UnknownLayer(4)));
}
