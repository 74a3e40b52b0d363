// Reading a line as a call.
ghost use Rattle.std.specs.Prelude.{◌≡◌, Result};
ghost use Rattle.frames.specs.Frames.{Answer, Decoded};
ghost use Rattle.frames.specs.declared.calls.Call.{Call as AnyCall};
ghost use Rattle.frames.specs.declared.faults.FrameFault.{FrameFault as AnyFault};

use crate::calls::Call;
use crate::faults::FrameFault;
use hexadecimal::read_hex;

// The bytes of a frame as a call: the kind first, then the fields, high byte first.
fn decode(bytes: &[u8]) -> Result<Call, FrameFault>
    ensures { Decoded bytes.now result }
{
    match *bytes {
        [0x01, a, b] => Ok(Call::Open {
            total: u16::from_be_bytes([a, b]),
        }),
        [0x02, leg, a, b, c, d] => Ok(Call::Bounds {
            leg,
            low: u16::from_be_bytes([a, b]),
            high: u16::from_be_bytes([c, d]),
        }),
        [0x03, stop, a, b, c, d] => Ok(Call::Window {
            stop,
            low: u16::from_be_bytes([a, b]),
            high: u16::from_be_bytes([c, d]),
        }),
        [0x04, stop] => Ok(Call::Lift { stop }),
        [0x05, a, b] => Ok(Call::Total {
            total: u16::from_be_bytes([a, b]),
        }),
        [0x06] => Ok(Call::Close),
        [0x11, a, b, c, d, e, f, g, h, i, j, k, l] => Ok(Call::AddLeg {
            q: u16::from_be_bytes([a, b]),
            t: u16::from_be_bytes([c, d]),
            r: i32::from_be_bytes([e, f, g, h]),
            lo: u16::from_be_bytes([i, j]),
            hi: u16::from_be_bytes([k, l]),
        }),
        [0x12, leg, a, b] => Ok(Call::SetRate {
            leg,
            rate: u16::from_be_bytes([a, b]),
        }),
        [0x01..=0x06 | 0x11 | 0x12, ..] => Err(FrameFault::WrongLength),
        _ => Err(FrameFault::UnknownKind),
    }
}

impl Call {
    // The call that a line spells, or the first refusal that applies: the line is not 2 to 64
    // characters of capital hexadecimal, two to a byte; no call has its kind; no frame of its kind
    // is so long.
    pub fn read(line: &[u8]) -> Result<Call, FrameFault>
        ensures answer { Answer line.now result }
        ensures only { (other : Result AnyCall AnyFault) → Answer line.now other → other ≡ result }
    {
        let mut place = [0; 32];
        let Some(count) = read_hex(line, &mut place) else {
            return Err(FrameFault::Malformed);
        };
        decode(&place[..count])
    }
}
