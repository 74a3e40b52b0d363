// The refusals of the sheet layer.
ghost use Rattle.std.specs.Prelude.{◌≡◌};
ghost use Rattle.register.specs.Faults.{told, timeless};
ghost use Rattle.register.specs.declared.fault.SheetFault.TheVariants.{Book};

use board::{Layer, Refusal};
use books::BookFault;
use solver::PlanFault;

// Why a sheet refuses a call; `leg` is the leg or stop that the refusal tells, as that number, 0 for none.
#[derive(Clone, Copy, PartialEq, Eq, Debug)]
pub enum SheetFault {
    // open on a standing sheet
    Standing { leg: u8 },
    // any other call on a blank one
    Blank { leg: u8 },
    // no such leg or stop, or a book with no leg at all
    NoSuchLeg { leg: u8 },
    // low above high
    Crossed { leg: u8 },
    // a number above 4,095
    TooLarge { leg: u8 },
    // bounds outside the book's ends
    OutsideEnds { leg: u8 },
    // a work area too short
    ShortArea { leg: u8 },
    // the change leaves no timing
    NoTiming { leg: u8 },
    // a refusal of the book below, passed on
    Book(BookFault),
}

// The number, layer and leg of the refusal.
impl From<SheetFault> for Refusal {
    ghost from_gives = { λ f r. r ≡ told f };

    fn from(fault: SheetFault) -> Self {
        let (number, leg) = match fault {
            SheetFault::Standing { leg } => (9, leg),
            SheetFault::Blank { leg } => (10, leg),
            SheetFault::NoSuchLeg { leg } => (11, leg),
            SheetFault::Crossed { leg } => (12, leg),
            SheetFault::TooLarge { leg } => (13, leg),
            SheetFault::OutsideEnds { leg } => (14, leg),
            SheetFault::ShortArea { leg } => (15, leg),
            SheetFault::NoTiming { leg } => (16, leg),
            SheetFault::Book(fault) => return fault.into(),
        };
        Refusal {
            number,
            layer: Layer::Sheet,
            leg,
        }
    }
}

// A refusal of the book, passed on.
impl From<BookFault> for SheetFault {
    ghost from_gives = { λ f r. r ≡ Book f };

    fn from(below: BookFault) -> Self {
        SheetFault::Book(below)
    }
}

// No timing, at the first leg at which nothing is left; a plan that does not fit the book names no leg.
impl From<PlanFault> for SheetFault {
    ghost from_gives = { λ f r. r ≡ timeless f };

    fn from(below: PlanFault) -> Self {
        match below {
            PlanFault::Stuck { leg } => SheetFault::NoTiming { leg },
            PlanFault::Unlawful => SheetFault::NoTiming { leg: 0 },
        }
    }
}
