// The refusals of the book layer.
ghost use Rattle.std.specs.Prelude.{◌≡◌};
ghost use Rattle.books.specs.Faults.{told};

use board::{Layer, Refusal};

// Why a book refuses a leg, a load or a rate.
#[derive(Clone, Copy, PartialEq, Eq, Debug)]
pub enum BookFault {
    // more than 64 legs
    TooManyLegs,
    // a leg whose head or ends are no lawful ones, or costs that no head covers
    BadLeg { leg: u8 },
    // a number of a leg beyond its range
    OutOfRange { leg: u8 },
    // costs that break the step law, and the middle one of the three minutes that show it
    FallingStep { leg: u8, minute: u16 },
    // a rate for a leg that is not 1 to 64
    NoSuchLeg { leg: u8 },
}

// The number, layer and leg of the refusal.
impl From<BookFault> for Refusal {
    ghost from_gives = { λ fault refusal. refusal ≡ told fault };

    fn from(fault: BookFault) -> Self {
        let (number, leg) = match fault {
            BookFault::TooManyLegs => (5, 65),
            BookFault::BadLeg { leg } => (6, leg),
            BookFault::OutOfRange { leg } => (7, leg),
            BookFault::FallingStep { leg, .. } => (8, leg),
            BookFault::NoSuchLeg { leg } => (11, leg),
        };
        Refusal {
            number,
            layer: Layer::Book,
            leg,
        }
    }
}
