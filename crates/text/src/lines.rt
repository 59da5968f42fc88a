// Lines: LF, CR LF as one end, CR.
ghost use Rattle.std.specs.Prelude.{◌≡◌, ◌≤◌, length, drop, IfSome, position};
ghost use Rattle.text.specs.Lines.{is_end, ends_at, start_of, line_count, content_of, place_in, bytes_in, CountedLinesAreThere};

use crate::places::Place;

// Whether the byte is part of a line end.
pub(crate) fn is_line_end(b: u8) -> bool
    ensures { result ≡ is_end b }
{
    matches!(b, b'\n' | b'\r')
}

// Whether a line ends right after the byte at the place: LF, or CR with no LF behind it. Past the text none does.
// A `match`: what each byte says is a test of its own. By `get` twice: a pattern over the rest of the text was timed, and
// took two and a half times as long.
pub fn ends_line(text: &[u8], at: usize) -> bool
    ensures { result ≡ ends_at (drop at text.now) }
{
    match text.get(at) {
        Some(b'\n') => true,
        Some(b'\r') => text.get(at + 1) != Some(&b'\n'),
        _ => false,
    }
}

// How many lines the text has.
pub fn line_count(text: &[u8]) -> usize
    ensures count { result ≡ line_count text.now }
    ensures lines { CountedLinesAreThere }
{
    // no `filter(..).count()`: tried, and not proved, since it is told by the runs of the filter
    let mut count = 1;
    for at in 0..text.len() {
        if ends_line(text, at) {
            count += 1;
        }
    }
    count
}

// Lines are counted over places, not over bytes: whether a line ends behind a byte turns on the byte after it.

// Where the line starts, counted from 0, none where the text has no such line.
pub fn line_start(text: &[u8], line: u32) -> Option<Place>
    ensures start { place_in result ≡ start_of text.now line }
    ensures within { IfSome result (λ p. p.0 ≤ length text.now) }
{
    let mut left = line;
    for at in 0..text.len() {
        if left == 0 {
            return Some(Place(at));
        }
        if ends_line(text, at) {
            left -= 1;
        }
    }
    (left == 0).then_some(Place(text.len()))
}

// The first byte of a line end.
fn first_line_end(bytes: &[u8]) -> Option<usize>
    ensures { result ≡ position is_end bytes.now }
{
    bytes.iter().position(|b| is_line_end(*b))
}

// The content of the line, without its end: a part of the text itself.
pub fn line_content(text: &[u8], line: u32) -> Option<&[u8]>
    ensures { bytes_in result ≡ content_of text.now line }
{
    let start = line_start(text, line)?.0;
    let rest = &text[start..];
    let end = start + first_line_end(rest).unwrap_or(rest.len());
    Some(&text[start..end])
}
