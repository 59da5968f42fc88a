// What stands before a place in its line.
ghost use Rattle.std.specs.Prelude.{◌≡◌};
ghost use Rattle.scanner.specs.Leads.{lead_of, after, clear_at};

use text::places::Place;

// What a byte says of the place behind it: whether only spaces and tabs stand before that in its line. A space or tab
// says nothing: it is the same as of the place before it.
fn lead_of(b: u8) -> Option<bool>
    ensures { result ≡ lead_of b }
{
    match b as char {
        ' ' | '\t' => None,
        '\n' | '\r' => Some(true),
        _ => Some(false),
    }
}

// Whether only spaces and tabs stand before the place behind a byte, told the same of the byte's own place.
pub(crate) fn clear_after(clear: bool, b: u8) -> bool
    ensures { result ≡ after clear b }
{
    lead_of(b).unwrap_or(clear)
}

// Whether only spaces and tabs stand before the place in its line. No place past the text is clear.
pub(crate) fn is_clear(text: &[u8], place: Place) -> bool
    ensures { result ≡ clear_at text.now place.0 }
{
    let Some(before) = text.get(..place.0) else {
        return false;
    };
    // no `find_map`: tried, and not proved, since it is told by the runs of the iterator
    for b in before.iter().rev() {
        if let Some(clear) = lead_of(*b) {
            return clear;
        }
    }
    true
}
