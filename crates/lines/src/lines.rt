// The lines of a text, handed out one by one as parts of it.
ghost use Rattle.std.specs.Prelude.{◌≡◌, ℕ, ◌+◌, ◌≤◌, List, length, take, drop, ◌<◌, ◌≢◌, slice_index};
ghost use Rattle.lines.specs.Lines.{lines_of, Splits};
ghost use Rattle.lines.specs.Reader.{to_come, HandsOut};
ghost use Rattle.std.specs.Iterator.{at_most};

// The first characters of a text: as many as the limit says, or all, if there are no more.
pub fn start_of(text: &[u8], limit: usize) -> &[u8]
    ensures { result.now ≡ take limit text.now }
{
    &text[..text.len().min(limit)]
}

// What is left of a text whose lines are handed out. A line ends at a line feed or at the end of
// the text; an empty rest after the last line feed is no line.
#[derive(Drop)]
pub struct Lines<'a> {
    rest: &'a [u8],
}

impl<'a> Lines<'a> {
    // The lines of a text, from the first on.
    pub fn new(text: &'a [u8]) -> Lines<'a>
        ensures all { to_come result ≡ lines_of text.now }
        ensures bound { length (lines_of text.now) ≤ length text.now }
        ensures splits { Splits text.now (lines_of text.now) }
        ensures only { (lines : List (List ℕ)) → Splits text.now lines → lines ≡ lines_of text.now }
    {
        Lines { rest: text }
    }
}

impl<'a> Iterator for Lines<'a> {
    type Item = &'a [u8];

    ghost next_gives = { HandsOut };

    ghost remaining = { λ s. at_most (length (to_come s)) };

    fn next(&mut self) -> Option<&'a [u8]> {
        let text = self.rest;
        if text.is_empty() {
            return None;
        }
        let end = line_end(text);
        self.rest = after(text, end);
        Some(&text[..end])
    }
}

// What follows the character at `end`: nothing, if the text ends there.
fn after(text: &[u8], end: usize) -> &[u8]
    requires { end ≤ length text.now }
    ensures { result.now ≡ drop (end + 1) text.now }
{
    text.get(end + 1..).unwrap_or(&[])
}

// Where the first line of a text ends: at its first line feed, or at its end.
fn line_end(text: &[u8]) -> usize
    ensures within { result ≤ length text.now }
    ensures before { (k : ℕ) → k < result → slice_index text.now k ≢ 10 }
    ensures found { result < length text.now → slice_index text.now result ≡ 10 }
{
    text.iter()
        .position(|character| *character == b'\n')
        .unwrap_or(text.len())
}
