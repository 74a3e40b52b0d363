// Writing an answer as a line.
ghost use Rattle.std.specs.Prelude.{◌≡◌, ◌+◌, ◌<◌, ◌≤◌, true, [], ◌∷◌, ◌++◌, length, take, drop, is_ok, if◌then◌else◌, vec_len, vec_capacity};
ghost use Rattle.arrayvec.specs.ArrayVec.{array_vec_len};
ghost use Rattle.hexadecimal.specs.Hex.{Puts};
ghost use Rattle.answers.specs.Meaning.{meant};
ghost use Rattle.answers.specs.Spelling.{Reply, timing, answer_bytes, spelled, Fits, Spells};

use crate::kinds::Answer;
use arrayvec::ArrayVec;
use hexadecimal::write_hex;
use std::alloc::AllocError;

// Appends bytes, for which there is room.
fn put(place: &mut ArrayVec<u8, 146>, bytes: &[u8])
    requires { array_vec_len place.old + length bytes.now ≤ 146 }
    ensures items { place.new.items ≡ place.old.items ++ bytes.now }
    ensures len { array_vec_len place.new ≡ array_vec_len place.old + length bytes.now }
{
    place.try_extend_from_slice(bytes).unwrap();
}

// The bytes of a timing.
fn timing_bytes(minutes: &[u16], kilograms: i64, cents: i64) -> ArrayVec<u8, 146>
    ensures bytes { result.items ≡ answer_bytes (timing (take 64 minutes.now) kilograms cents) }
    ensures fits { Fits (timing (take 64 minutes.now) kilograms cents) }
{
    let flown = &minutes[..minutes.len().min(64)];
    let mut bytes = ArrayVec::new();
    put(&mut bytes, &[0x81, flown.len() as u8]);
    for minute in flown {
        put(&mut bytes, &minute.to_be_bytes());
    }
    put(&mut bytes, &kilograms.to_be_bytes());
    put(&mut bytes, &cents.to_be_bytes());
    bytes
}

impl Answer<'_> {
    // Writes the answer's digits at the start of a line, and tells how many there are; the other characters stay.
    fn write_digits(self, line: &mut [u8; 293]) -> Option<usize>
        ensures digits { Puts (answer_bytes (meant self.entry)) line.old result line.new }
        ensures fits { Fits (meant self.entry) }
    {
        match self {
            Answer::Done => write_hex(&[0x80], line),
            Answer::Timing {
                minutes,
                kilograms,
                cents,
            } => write_hex(&timing_bytes(minutes, kilograms, cents), line),
            Answer::Refused {
                refusal,
                line: number,
            } => {
                let [high, low] = number.to_be_bytes();
                let layer = refusal.layer.into();
                write_hex(&[0xEE, refusal.number, layer, refusal.leg, high, low], line)
            }
        }
    }

    // Appends the answer's line, with its line feed, to a text. No other answer has that line. If
    // there is no memory for it, the text stays as it was; where the text has room it never fails.
    pub fn write(self, text: &mut Vec<u8>) -> Result<(), AllocError>
        ensures items { text.new.items ≡ (if is_ok result then text.old.items ++ (spelled (meant self.entry) ++ 10 ∷ []) else text.old.items) }
        ensures room { vec_len text.old + length (spelled (meant self.entry)) < vec_capacity text.old → is_ok result ≡ true }
        ensures capacity { vec_capacity text.old ≤ vec_capacity text.new }
        ensures spells { Spells (spelled (meant self.entry)) (meant self.entry) }
        ensures short { length (spelled (meant self.entry)) ≤ 292 }
        ensures only { (other : Reply) → Spells (spelled (meant self.entry)) other → other ≡ meant self.entry }
    {
        let mut line = [0; 293];
        let Some(end) = self.write_digits(&mut line) else {
            unreachable()
        };
        line[end] = b'\n';
        text.extend_from_slice(&line[..=end])
    }
}
