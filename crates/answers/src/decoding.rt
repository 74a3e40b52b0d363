// Reading an answer line.
ghost use Rattle.std.specs.Prelude.{◌≡◌, ◌≤◌, ◌∷◌, ◌++◌, length, map, drop};
ghost use Rattle.std.specs.Int.{w16, from_be_bytes};
ghost use Rattle.answers.specs.Heard.{Decodes, ReadAs, Reads};
ghost use Rattle.answers.specs.Spelling.{Reply, Spells};

use crate::kinds::Reading;
use board::{Layer, Refusal};
use hexadecimal::read_hex;

// Reads minutes, two bytes each, into the start of a place.
// By index: in a `zip` with `iter_mut` a proof knows no more of the place than its length.
fn take_minutes(pairs: &[[u8; 2]], minutes: &mut [u16; 64])
    requires { length pairs.now ≤ 64 }
    ensures { minutes.new ≡ map (from_be_bytes w16) pairs.now ++ drop (length pairs.now) minutes.old }
{
    for (i, pair) in pairs.iter().enumerate() {
        minutes[i] = u16::from_be_bytes(*pair);
    }
}

// Reads what follows the kind and the number of legs of a timing.
fn decode_timing(legs: u8, fields: &[u8], minutes: &mut [u16; 64]) -> Option<Reading>
    ensures { Decodes (0x81 ∷ legs ∷ fields.now) minutes.old result minutes.new }
{
    let (fields, cents) = fields.split_last_chunk::<8>()?;
    let (flown, kilograms) = fields.split_last_chunk::<8>()?;
    if legs > 64 || flown.len() != 2 * usize::from(legs) {
        return None;
    }
    take_minutes(flown.as_chunks().0, minutes);
    Some(Reading::Timing {
        legs,
        kilograms: i64::from_be_bytes(*kilograms),
        cents: i64::from_be_bytes(*cents),
    })
}

// Reads the bytes of an answer.
fn decode(bytes: &[u8], minutes: &mut [u16; 64]) -> Option<Reading>
    ensures { Decodes bytes.now minutes.old result minutes.new }
{
    match bytes {
        [0x80] => Some(Reading::Done),
        [0x81, legs, fields @ ..] => decode_timing(*legs, fields, minutes),
        [0xEE, number, layer, leg, high, low] => {
            let refusal = Refusal {
                number: *number,
                layer: Layer::try_from(*layer).ok()?,
                leg: *leg,
            };
            Some(Reading::Refused {
                refusal,
                line: u16::from_be_bytes([*high, *low]),
            })
        }
        _ => None,
    }
}

impl Reading {
    // Reads an answer line, without its line feed: the line spells the answer that is told, and an
    // answer that is spelled so is told. The minutes of a timing go to the start of a place, which
    // stays as it was past them, and all of it where there is no timing.
    // The place is lent, so that this promise can be kept; a vector that is answered would leave no rest.
    pub fn read(line: &[u8], minutes: &mut [u16; 64]) -> Option<Reading>
        ensures reads { Reads line.now minutes.old result minutes.new }
        ensures only { (reply : Reply) → Spells line.now reply → ReadAs result minutes.new reply }
    {
        let mut place = [0; 146];
        let count = read_hex(line, &mut place)?;
        decode(&place[..count], minutes)
    }
}
