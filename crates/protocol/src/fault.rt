// The refusals of a line: those of its frame, and those of the sheet layer, which passes on the book's.
ghost use Rattle.std.specs.Prelude.{◌≡◌};
ghost use Rattle.protocol.specs.Faults.{told};
ghost use Rattle.protocol.specs.declared.fault.LineFault.TheVariants.{Frame, Sheet};

use board::Refusal;
use frames::FrameFault;
use register::SheetFault;

// Why a line is refused.
#[derive(Clone, Copy, PartialEq, Eq, Debug)]
pub enum LineFault {
    // by its frame
    Frame(FrameFault),
    // by the sheet, or by the book below it
    Sheet(SheetFault),
}

// The number, layer and leg of the refusal.
impl From<LineFault> for Refusal {
    ghost from_gives = { λ f r. r ≡ told f };

    fn from(fault: LineFault) -> Refusal {
        match fault {
            LineFault::Frame(fault) => fault.into(),
            LineFault::Sheet(fault) => fault.into(),
        }
    }
}

impl From<FrameFault> for LineFault {
    ghost from_gives = { λ f r. r ≡ Frame f };

    fn from(fault: FrameFault) -> LineFault {
        LineFault::Frame(fault)
    }
}

impl From<SheetFault> for LineFault {
    ghost from_gives = { λ f r. r ≡ Sheet f };

    fn from(fault: SheetFault) -> LineFault {
        LineFault::Sheet(fault)
    }
}
