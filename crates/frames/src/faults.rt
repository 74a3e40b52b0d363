// Why a line is refused as a frame.
ghost use Rattle.std.specs.Prelude.{◌≡◌};
ghost use Rattle.frames.specs.Faults.{told};

use board::{Layer, Refusal};

// The refusals of the frame layer.
#[derive(Clone, Copy, PartialEq, Eq, Debug)]
pub enum FrameFault {
    // Not a line of capital hexadecimal.
    Malformed,
    // No call has this kind.
    UnknownKind,
    // No frame of this kind is so long.
    WrongLength,
    // A leg or a rate after a line of the sheet's calls. Only who carries a whole text can tell it:
    // a line that is read on its own has none before it.
    TooLate,
}

// The number, layer and leg of the refusal.
impl From<FrameFault> for Refusal {
    ghost from_gives = { λ fault refusal. refusal ≡ told fault };

    fn from(fault: FrameFault) -> Refusal {
        let number = match fault {
            FrameFault::Malformed => 1,
            FrameFault::UnknownKind => 2,
            FrameFault::WrongLength => 3,
            FrameFault::TooLate => 4,
        };
        Refusal {
            number,
            layer: Layer::Frame,
            leg: 0,
        }
    }
}
