// What a line's call asks for: an entry in the book, or a call on the sheet.
ghost use Rattle.std.specs.Prelude.{◌≡◌};
ghost use Rattle.protocol.specs.Requests.{requested};

use books::FormulaLeg;
use frames::Call;
use register::Call as SheetCall;

// An entry in a book.
#[derive(Clone, Copy)]
pub(crate) enum Entry {
    // a leg more
    Leg(FormulaLeg),
    // the rate of a leg, in cents a minute
    Rate { leg: u8, rate: u16 },
}

// What a call asks for.
#[derive(Clone, Copy)]
pub(crate) enum Request {
    // to write an entry in the book
    Write(Entry),
    // to carry out a call on the sheet
    Time(SheetCall),
}

// What a call asks for: kinds 11 and 12 write in the book, and kinds 01 to 06 are for the sheet.
impl From<Call> for Request {
    ghost from_gives = { λ call request. request ≡ requested call };

    fn from(call: Call) -> Request {
        match call {
            Call::Open { total } => Request::Time(SheetCall::Open { total }),
            Call::Bounds { leg, low, high } => Request::Time(SheetCall::Bounds { leg, low, high }),
            Call::Window { stop, low, high } => {
                Request::Time(SheetCall::Window { stop, low, high })
            }
            Call::Lift { stop } => Request::Time(SheetCall::Lift { stop }),
            Call::Total { total } => Request::Time(SheetCall::Total { total }),
            Call::Close => Request::Time(SheetCall::Close),
            Call::AddLeg { q, t, r, lo, hi } => Request::Write(Entry::Leg(FormulaLeg {
                q,
                t,
                r,
                lo,
                hi,
            })),
            Call::SetRate { leg, rate } => Request::Write(Entry::Rate { leg, rate }),
        }
    }
}
