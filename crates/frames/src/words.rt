// Calls and refusals in words.
ghost use Rattle.std.specs.Prelude.{Some};
ghost use Rattle.frames.specs.Words.{words_of_call, words_of_fault};

use crate::calls::Call;
use crate::faults::FrameFault;
use std::fmt;

// A call in words, with its numbers.
impl fmt::Display for Call {
    ghost output = { λ call. Some (words_of_call call) };

    fn fmt<W: fmt::Write>(&self, f: &mut fmt::Formatter<W>) -> fmt::Result {
        match self {
            Call::Open { total } => write!(f, "open with a total of {total} minutes"),
            Call::Bounds { leg, low, high } => {
                write!(f, "bounds of leg {leg} from {low} to {high} minutes")
            }
            Call::Window { stop, low, high } => {
                write!(f, "window at stop {stop} from {low} to {high} minutes")
            }
            Call::Lift { stop } => write!(f, "lift of the window at stop {stop}"),
            Call::Total { total } => write!(f, "total of {total} minutes"),
            Call::Close => write!(f, "close"),
            Call::AddLeg { q, t, r, lo, hi } => {
                write!(
                    f,
                    "formula leg with q {q}, t {t}, r {r}, from {lo} to {hi} minutes"
                )
            }
            Call::SetRate { leg, rate } => {
                write!(f, "rate of leg {leg} set to {rate} cents a minute")
            }
        }
    }
}

// A refusal in words.
impl fmt::Display for FrameFault {
    ghost output = { λ fault. Some (words_of_fault fault) };

    fn fmt<W: fmt::Write>(&self, f: &mut fmt::Formatter<W>) -> fmt::Result {
        f.write_str(match self {
            FrameFault::Malformed => "not a line of 1 to 32 bytes in capital hexadecimal",
            FrameFault::UnknownKind => "no call has this kind",
            FrameFault::WrongLength => "wrong length for its kind",
            FrameFault::TooLate => "a leg or a rate after a call of the sheet",
        })
    }
}
