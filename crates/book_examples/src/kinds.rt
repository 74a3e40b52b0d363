// Examples of amounts at the edges of their range, and of ranked amounts.
use amounts::{Amount, Cents, Kilograms, Ranked};
use std::test::Fail;

// So many kilograms, and behind them so many cents.
fn pair(kilograms: i64, cents: i64) -> Ranked<Kilograms, Cents> {
    Ranked {
        first: Kilograms::new(kilograms),
        second: Cents::new(cents),
    }
}

// A number beyond the range is made the nearer end of it.
#[test]
fn made_beyond_the_range(rt: HostRuntime) -> Result<(), Fail> {
    let high = Kilograms::new(i64::MAX);
    let low = Kilograms::new(i64::MIN);
    assert_eq!(rt; high.value(), 140_737_488_355_328);
    assert_eq!(rt; low.value(), -140_737_488_355_328);
    let zero = high.checked_add(low).ok_or("absent")?;
    assert_eq!(rt; zero.value(), 0);
    Ok(())
}

#[test]
fn sums_at_the_edge(rt: HostRuntime) -> Result<(), Fail> {
    let one = Cents::new(1);
    let high = Cents::new(140_737_488_355_327)
        .checked_add(one)
        .ok_or("absent")?;
    assert_eq!(rt; high.value(), 140_737_488_355_328);
    assert!(rt; high.checked_add(one).is_none());
    assert!(rt; Cents::new(-140_737_488_355_328).checked_sub(one).is_none());
    assert!(rt; !high.at_most(one) && one.at_most(high) && one.at_most(one));
    Ok(())
}

// The first part decides, whatever the parts add up to; the second decides between equals.
#[test]
fn first_part_decides(rt: HostRuntime) {
    assert!(rt; pair(1, 100).at_most(pair(2, 0)));
    assert!(rt; !pair(2, 0).at_most(pair(1, 100)));
    assert!(rt; !pair(1, 3).at_most(pair(1, 2)));
    assert!(rt; pair(1, 2).at_most(pair(1, 2)));
}

#[test]
fn nests_on_both_sides(rt: HostRuntime) -> Result<(), Fail> {
    let left = Ranked {
        first: pair(1, 2),
        second: Cents::new(3),
    };
    let right = Ranked {
        first: Cents::new(3),
        second: pair(1, 2),
    };
    let twice = left.checked_add(left).ok_or("absent")?;
    assert_eq!(rt; twice.first.second.value(), 4);
    assert!(rt; left.at_most(twice) && !twice.at_most(left));
    let none = right.checked_sub(right).ok_or("absent")?;
    assert!(rt; none.at_most(right) && !right.at_most(none));
    Ok(())
}

#[test]
fn absent_if_one_place_is(rt: HostRuntime) {
    let edge = pair(0, 140_737_488_355_328);
    assert!(rt; edge.checked_add(pair(-1, 1)).is_none());
    assert!(rt; edge.checked_sub(pair(-1, -1)).is_none());
}

#[test]
fn printed(rt: HostRuntime) -> Result<(), Fail> {
    let cents = format!(in rt.alloc(); "{}", Cents::new(-300))?;
    assert_eq!(rt; cents.as_str(), "-300 cents");
    let kilograms = format!(in rt.alloc(); "{}", Kilograms::new(12))?;
    assert_eq!(rt; kilograms.as_str(), "12 kg");
    let both = format!(in rt.alloc(); "{}", pair(0, 290))?;
    assert_eq!(rt; both.as_str(), "0 kg then 290 cents");
    Ok(())
}
