// Works through the sample rotations on real sheets and prints what stands after each call.
#![tactic(auto)]

ghost use Rattle.std.specs.Prelude.{◌≡◌, ◌≤◌};
ghost use Rattle.register.specs.declared.call.Call.TheVariants.{Window};
ghost use Rattle.books.specs.Formula.{formulas};
ghost use Rattle.samples.specs.Samples.{leg};
ghost use Rattle.sample_run.specs.Books.{LegsOf};

mod legs;
mod words;

use amounts::{Amount, Kilograms, Ranked};
use board::Refusal;
use books::{Book, FormulaBook};
use legs::{charge_book, formula_book, worth};
use register::Call;
use samples::samples_hold;
use sheet::Sheet;
use std::fmt::Display;
use words::minutes_words;

// Room enough for three legs and 174 minutes: 3 times 175 minutes, and twice 175 amounts.
const MINUTES: usize = 525;

const AMOUNTS: usize = 350;

// Some legs of G, the book of the samples: each is flown in 50 to 70 minutes, and costs the square of their distance from 60.
fn g(legs: u8) -> FormulaBook
    requires { legs ≤ 64 }
    ensures { LegsOf (formulas result.legs.items) legs (leg 1) }
{
    formula_book(1, legs).unwrap()
}

// Says which minutes stand on a sheet, and their cost. What tells of a sheet takes the runtime and the sheet, two lent things of
// unlike kind, and no struct of both.
fn tell_timing<B: Book>(
    rt: &HostRuntime,
    sample: &str,
    sheet: &Sheet<B>,
    cost: B::Cost,
) -> anyhow::Result<()>
where
    B::Cost: Display,
{
    let minutes = minutes_words(rt.alloc(), sheet)?;
    println!(rt; "{sample}:{minutes}, cost {cost}")?;
    Ok(())
}

// Makes calls on a sheet, lent a place for amounts, and says what each has led to.
fn work<B: Book>(
    rt: &HostRuntime,
    sheet: &mut Sheet<B>,
    amounts: &mut [B::Cost],
    calls: &[(&str, Call)],
) -> anyhow::Result<()>
where
    B::Cost: Display,
{
    let mut minutes = [0; MINUTES];
    for (sample, call) in calls {
        match sheet.call(*call, &mut minutes, amounts) {
            Ok(Some(cost)) => tell_timing(rt, sample, sheet, cost)?,
            Ok(None) => {}
            Err(fault) => println!(rt; "{sample}: {}", Refusal::from(fault))?,
        }
    }
    Ok(())
}

// Makes calls on a sheet over legs of G.
fn work_g(
    rt: &HostRuntime,
    sheet: &mut Sheet<FormulaBook>,
    calls: &[(&str, Call)],
) -> anyhow::Result<()> {
    work(rt, sheet, &mut [Kilograms::zero(); AMOUNTS], calls)
}

// Opens a sheet over legs of G, and no more.
fn open(rt: &HostRuntime, sample: &str, legs: u8, total: u16) -> anyhow::Result<()>
    requires { legs ≤ 64 }
{
    work_g(
        rt,
        &mut Sheet::new(g(legs)),
        &[(sample, Call::Open { total })],
    )
}

// The call that sets the window of a stop.
fn window(stop: u8, low: u16, high: u16) -> Call
    ensures { result ≡ Window stop low high }
{
    Call::Window { stop, low, high }
}

// Three legs of G, and windows after the second.
fn three_legs(rt: &HostRuntime) -> anyhow::Result<()> {
    work_g(
        rt,
        &mut Sheet::new(g(3)),
        &[
            ("3 legs of G, open 174", Call::Open { total: 174 }),
            // 53 52 69 would be as right: it costs the same
            ("- then window(2, 100, 105)", window(2, 100, 105)),
            ("- instead window(2, 100, 104)", window(2, 100, 104)),
            ("- instead window(2, 100, 103)", window(2, 100, 103)),
        ],
    )
}

// Says what the price of a leg is worth, on a sheet over two legs of G.
fn tell_price(rt: &HostRuntime, sheet: &Sheet<FormulaBook>, leg: u8) -> anyhow::Result<()> {
    let Some(price) = sheet.price(leg) else {
        return Ok(());
    };
    if let Some(worth) = worth(&g(2), price) {
        println!(rt; "- price on leg {leg}: {worth}")?;
    }
    Ok(())
}

// Says which timing still stands on a sheet.
fn tell_still(rt: &HostRuntime, sheet: &Sheet<FormulaBook>) -> anyhow::Result<()> {
    if let Some(cost) = sheet.cost() {
        tell_timing(rt, "- and still", sheet, cost)?;
    }
    Ok(())
}

// Two legs of G under a window, and their prices; and a refused call, after which the sheet is as before.
fn two_legs(rt: &HostRuntime) -> anyhow::Result<()> {
    let mut sheet = Sheet::new(g(2));
    work_g(
        rt,
        &mut sheet,
        &[
            ("2 legs of G, open 120", Call::Open { total: 120 }),
            ("- then window(1, 50, 61)", window(1, 50, 61)),
            ("- then total 125", Call::Total { total: 125 }),
        ],
    )?;
    tell_price(rt, &sheet, 1)?;
    tell_price(rt, &sheet, 2)?;
    work_g(
        rt,
        &mut sheet,
        &[("- then window(1, 10, 20)", window(1, 10, 20))],
    )?;
    tell_still(rt, &sheet)
}

// Two legs with rates, in kilograms and then cents.
fn charged(rt: &HostRuntime, sample: &str, q: u16) -> anyhow::Result<()> {
    work(
        rt,
        &mut Sheet::new(charge_book(q)),
        &mut [Ranked::zero(); AMOUNTS],
        &[(sample, Call::Open { total: 120 })],
    )
}

// The samples hold, as is proved; then each is worked through.
fn main(rt: HostRuntime) -> anyhow::Result<()> {
    samples_hold();
    open(&rt, "1 leg of G, open 60", 1, 60)?;
    open(&rt, "1 leg of G, open 71", 1, 71)?;
    three_legs(&rt)?;
    two_legs(&rt)?;
    open(&rt, "2 legs of G, open 140", 2, 140)?;
    open(&rt, "2 legs of G, open 141", 2, 141)?;
    charged(&rt, "2 legs with q 0, rates 3 and 2, open 120", 0)?;
    charged(&rt, "2 legs of G, rates 3 and 2, open 120", 1)
}
