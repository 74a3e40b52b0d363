// Bytes as capital hexadecimal digits, written and read. The toolchain's library `hex` reads small letters too, and writes into a
// place in small letters alone, so it is not used.
ghost use Rattle.std.specs.Prelude.{◌≡◌, ◌*◌, ◌<◌, ◌≤◌, ◌++◌, length, take, drop, MatchBool, MatchOption};
ghost use Rattle.hexadecimal.specs.Hex.{digit, Digit, Digits, Stands, hexed, Hexes, WellFormed, Puts, Takes};

// The capital digit of a number below 16.
fn digit_of(n: u8) -> u8
    requires { n < 16 }
    ensures { result ≡ digit n }
{
    if n < 10 { b'0' + n } else { b'A' - 10 + n }
}

// The number that a digit stands for, or none, if the character is no digit.
fn digit_value(character: u8) -> Option<u8>
    ensures { MatchOption result (Digit character → ⊥) (Stands character) }
{
    match character {
        b'0'..=b'9' => Some(character - b'0'),
        b'A'..=b'F' => Some(character - b'A' + 10),
        _ => None,
    }
}

// The number that a digit stands for.
fn value_of(character: u8) -> u8
    requires { Digit character }
    ensures { Stands character result }
{
    digit_value(character).unwrap()
}

// Whether a line holds nothing but digits.
fn all_digits(line: &[u8]) -> bool
    ensures { MatchBool result (Digits line.now) (Digits line.now → ⊥) }
{
    line.iter()
        .all(|character| digit_value(*character).is_some())
}

// Both ways write into a place that is lent, and tell how far it is used: what stood behind stays, and no memory is taken.

// Writes bytes as hexadecimal at the start of a place that is long enough, and tells how many
// characters it wrote.
fn put_hex(bytes: &[u8], place: &mut [u8]) -> usize
    requires { 2 * length bytes.now ≤ length place.old }
    ensures count { result ≡ length (hexed bytes.now) }
    ensures after { place.new ≡ hexed bytes.now ++ drop result place.old }
{
    // by index into the place: after `as_chunks_mut` a proof knows only how long it is
    for (i, byte) in bytes.iter().enumerate() {
        place[2 * i] = digit_of(*byte / 16);
        place[2 * i + 1] = digit_of(*byte % 16);
    }
    2 * bytes.len()
}

// Writes bytes as hexadecimal at the start of a place, and tells how many characters it wrote; the
// others stay. If the place is too short, all of it stays.
pub fn write_hex(bytes: &[u8], place: &mut [u8]) -> Option<usize>
    ensures { Puts bytes.now place.old result place.new }
{
    if bytes.len() > place.len() / 2 {
        return None;
    }
    Some(put_hex(bytes, place))
}

// Reads the bytes of a line of digits into the start of a place that is long enough.
fn take_hex(line: &[u8], place: &mut [u8]) -> usize
    requires { WellFormed (2 * length place.old) line.now }
    ensures count { result ≤ length place.old }
    ensures bytes { Hexes line.now (take result place.new) }
    ensures same { drop result place.new ≡ drop result place.old }
{
    let (pairs, _) = line.as_chunks::<2>();
    // by index into the place: after `place.iter_mut().zip(pairs)` a proof knows only how long it is
    for (i, [high, low]) in pairs.iter().enumerate() {
        place[i] = 16 * value_of(*high) + value_of(*low);
    }
    pairs.len()
}

// Reads a line of hexadecimal into the start of a place, and tells how many bytes it read; the
// others stay. A line that is not well formed, or too long for the place, leaves all of it.
pub fn read_hex(line: &[u8], place: &mut [u8]) -> Option<usize>
    ensures { Takes line.now place.old result place.new }
{
    let count = line.len() / 2;
    if line.is_empty() || line.len() % 2 != 0 || count > place.len() || !all_digits(line) {
        return None;
    }
    Some(take_hex(line, place))
}
