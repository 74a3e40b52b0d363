// Writing a call as a line.
ghost use Rattle.std.specs.Prelude.{◌≡◌, ◌≤◌, ◌++◌, length, drop};
ghost use Rattle.hexadecimal.specs.Hex.{hexed};
ghost use Rattle.frames.specs.Frames.{line_of, Spells};

use crate::calls::Call;
use hexadecimal::write_hex;

// Writes the bytes of a frame as hexadecimal at the start of a place, and tells how many characters it wrote; the others stay.
// It stands apart from `write_hex`, which may be absent: that a frame always has room is shown here once, for every kind.
fn put_hex(bytes: &[u8], place: &mut [u8; 64]) -> usize
    requires { length bytes.now ≤ 32 }
    ensures count { result ≡ length (hexed bytes.now) }
    ensures after { place.new ≡ hexed bytes.now ++ drop result place.old }
{
    write_hex(bytes, place).unwrap()
}

impl Call {
    // Writes the call's line at the start of a place, with no line feed, and tells how many
    // characters it wrote; the others stay. The place is lent for that, and no vector answered.
    pub fn write(self, place: &mut [u8; 64]) -> usize
        ensures count { result ≡ length (line_of self) }
        ensures after { place.new ≡ line_of self ++ drop result place.old }
        ensures spells { Spells (line_of self) self }
    {
        match self {
            Call::Open { total } => {
                let [a, b] = total.to_be_bytes();
                put_hex(&[0x01, a, b], place)
            }
            Call::Bounds { leg, low, high } => {
                let [a, b] = low.to_be_bytes();
                let [c, d] = high.to_be_bytes();
                put_hex(&[0x02, leg, a, b, c, d], place)
            }
            Call::Window { stop, low, high } => {
                let [a, b] = low.to_be_bytes();
                let [c, d] = high.to_be_bytes();
                put_hex(&[0x03, stop, a, b, c, d], place)
            }
            Call::Lift { stop } => put_hex(&[0x04, stop], place),
            Call::Total { total } => {
                let [a, b] = total.to_be_bytes();
                put_hex(&[0x05, a, b], place)
            }
            Call::Close => put_hex(&[0x06], place),
            Call::AddLeg { q, t, r, lo, hi } => {
                let [a, b] = q.to_be_bytes();
                let [c, d] = t.to_be_bytes();
                let [e, f, g, h] = r.to_be_bytes();
                let [i, j] = lo.to_be_bytes();
                let [k, l] = hi.to_be_bytes();
                put_hex(&[0x11, a, b, c, d, e, f, g, h, i, j, k, l], place)
            }
            Call::SetRate { leg, rate } => {
                let [a, b] = rate.to_be_bytes();
                put_hex(&[0x12, leg, a, b], place)
            }
        }
    }
}
