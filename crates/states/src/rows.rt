// The rows of the refusal board that a sheet looks at before it seeks a timing: each answers whether the row applies.
ghost use Rattle.amounts.specs.Orders.{Tells};
ghost use Rattle.register.specs.Register.{Opens, Elsewhere, Crossed, TooLarge, Outside, Times};

use books::{Book, LAST_MINUTE};
use register::Call;

// Whether the call is an open.
pub(crate) fn opens(call: Call) -> bool
    ensures { Tells result (Opens call) }
{
    matches!(call, Call::Open { .. })
}

// Whether the call puts a timing on the sheet.
pub(crate) fn times(call: Call) -> bool
    ensures { Tells result (Times call) }
{
    !matches!(call, Call::Close)
}

// Row 11: an open on a book with no leg, a leg not 1 to n, or a stop not 1 to n - 1.
pub(crate) fn elsewhere<B: Book>(book: &B, call: Call) -> bool
    ensures { Tells result (Elsewhere (B.meaning book.now) call) }
{
    let legs = book.legs();
    match call {
        Call::Open { .. } => legs == 0,
        Call::Bounds { leg, .. } => leg == 0 || leg as usize > legs,
        Call::Window { stop, .. } | Call::Lift { stop } => stop == 0 || stop as usize >= legs,
        _ => false,
    }
}

// Row 12: low above high.
pub(crate) fn crossed(call: Call) -> bool
    ensures { Tells result (Crossed call) }
{
    match call {
        Call::Bounds { low, high, .. } | Call::Window { low, high, .. } => low > high,
        _ => false,
    }
}

// Row 13: a number above 4,095.
pub(crate) fn too_large(call: Call) -> bool
    ensures { Tells result (TooLarge call) }
{
    match call {
        Call::Open { total } | Call::Total { total } => total > LAST_MINUTE,
        Call::Bounds { low, high, .. } | Call::Window { low, high, .. } => low > LAST_MINUTE
            || high > LAST_MINUTE,
        _ => false,
    }
}

// Row 14: bounds outside the book's ends. It is asked of a leg of the book alone.
pub(crate) fn outside<B: Book>(book: &B, call: Call) -> bool
    ensures { (Elsewhere (B.meaning book.now) call → ⊥) → Tells result (Outside (B.meaning book.now) call) }
{
    let Call::Bounds { leg, low, high } = call else {
        return false;
    };
    let Some(ends) = book.ends(leg as usize) else {
        return false;
    };
    low < ends.lo || ends.hi < high
}
