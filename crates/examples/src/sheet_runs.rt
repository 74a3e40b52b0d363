// Examples of calls on a new sheet, each answered by a cost or a refusal, and of its questions.
use amounts::Kilograms;
use board::Refusal;
use books::{BookFault, FormulaBook, FormulaLeg};
use register::{Areas, Call, SheetFault};
use sheet::{Asked, Sheet, run};
use std::test::Fail;

// A call that is handed areas long enough for three legs and a total of 174 minutes.
fn asked(call: Call) -> Asked {
    let areas = Areas {
        minutes: 525,
        amounts: 350,
    };
    Asked { call, areas }
}

// The kilograms of a granted call; absent for a close.
fn kilograms(answer: Option<Kilograms>) -> Option<i64> {
    Some(answer?.value())
}

// The row and the leg that a refusal tells.
fn told(fault: SheetFault) -> (u8, u8) {
    let Refusal { number, leg, .. } = fault.into();
    (number, leg)
}

// A book of legs of 50 to 70 minutes that cost the square of their distance from 60.
fn legs_of_60(legs: u8) -> Result<FormulaBook, BookFault> {
    let mut book = FormulaBook::new();
    for _ in 0..legs {
        book.add_leg(FormulaLeg {
            q: 1,
            t: 60,
            r: 0,
            lo: 50,
            hi: 70,
        })?;
    }
    Ok(book)
}

// Three legs of 50 to 70 minutes, 174 in all: with no window, with the second stop shut at 105, and at 103, which no timing meets.
#[test]
fn three_legs(rt: HostRuntime) -> Result<(), Fail> {
    let book = legs_of_60(3)?;
    let calls = [
        asked(Call::Open { total: 174 }),
        asked(Call::Window {
            stop: 2,
            low: 100,
            high: 105,
        }),
        asked(Call::Window {
            stop: 2,
            low: 100,
            high: 103,
        }),
        asked(Call::Close),
    ];
    let mut minutes = [0; 525];
    let mut amounts = [Kilograms::new(0); 350];
    let (_sheet, answers) = run(rt.alloc(), book, &calls, &mut minutes, &mut amounts)?;
    let expected = [Ok(Some(12)), Ok(Some(194)), Err((16, 3)), Ok(None)];
    assert_eq!(rt; answers.len(), expected.len());
    for (answer, right) in answers.iter().zip(&expected) {
        assert_eq!(rt; answer.map(kilograms).map_err(told), *right);
    }
    Ok(())
}

// What a call that puts a timing on a sheet has answered.
fn answered(answer: Result<Kilograms, SheetFault>) -> Result<i64, (u8, u8)> {
    answer.map(|cost| cost.value()).map_err(told)
}

// Two legs: a blank sheet, opened at 120, with a window at the stop and another total; then one that cannot be met.
#[test]
fn questions_of_a_sheet(rt: HostRuntime) -> Result<(), Fail> {
    let mut minutes = [0; 252];
    let mut amounts = [Kilograms::new(0); 252];
    let mut sheet = Sheet::new(legs_of_60(2)?);
    assert!(rt; sheet.minutes(1).is_none() && sheet.price(1).is_none() && sheet.cost().is_none());
    assert_eq!(rt;
        answered(sheet.open(120, &mut minutes, &mut amounts)),
        Ok(0)
    );
    assert_eq!(rt;
        answered(sheet.window(1, 50, 61, &mut minutes, &mut amounts)),
        Ok(0)
    );
    assert_eq!(rt;
        answered(sheet.total(125, &mut minutes, &mut amounts)),
        Ok(17)
    );
    let refused = answered(sheet.window(1, 10, 20, &mut minutes, &mut amounts));
    assert_eq!(rt; refused, Err((16, 1)));
    assert_eq!(rt; sheet.minutes(1), Some(61));
    assert_eq!(rt; sheet.minutes(2), Some(64));
    assert_eq!(rt; sheet.minutes(3), None);
    assert!(rt; sheet.price(2).is_some() && sheet.price(0).is_none());
    assert_eq!(rt; sheet.timing().ok_or("blank")?, [61, 64].as_slice());
    Ok(())
}

// The window lifted, bounds that leave one timing, and a blank sheet again.
#[test]
fn calls_on_a_sheet(rt: HostRuntime) -> Result<(), Fail> {
    let mut minutes = [0; 252];
    let mut amounts = [Kilograms::new(0); 252];
    let mut sheet = Sheet::new(legs_of_60(2)?);
    assert_eq!(rt;
        answered(sheet.open(125, &mut minutes, &mut amounts)),
        Ok(13)
    );
    assert_eq!(rt;
        answered(sheet.window(1, 50, 61, &mut minutes, &mut amounts)),
        Ok(17)
    );
    assert_eq!(rt; answered(sheet.lift(1, &mut minutes, &mut amounts)), Ok(13));
    assert_eq!(rt;
        answered(sheet.bounds(1, 55, 55, &mut minutes, &mut amounts)),
        Ok(125)
    );
    assert_eq!(rt; sheet.cost().ok_or("blank")?.value(), 125);
    assert!(rt; sheet.close().is_ok() && sheet.timing().is_none());
    assert!(rt; sheet.close().is_err());
    Ok(())
}
