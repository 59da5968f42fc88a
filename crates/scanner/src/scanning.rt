// The scan for the next token.
ghost use Rattle.std.specs.Prelude.{◌≡◌, slice_index};
ghost use Rattle.scanner.specs.Scan.{inner, start_of, next_by, SoundReadingsAreLawful};

use crate::leads::{clear_after, is_clear};
use crate::piece::Piece;
use crate::reader::Reader;
use languages::token::Token;
use text::places::Place;

// Whether the byte is one after a character's first.
fn is_inner(b: u8) -> bool
    ensures { result ≡ inner b }
{
    matches!(b as char, '\u{80}'..='\u{BF}')
}

// Whether the place is inside a character.
fn is_inside(text: &[u8], place: Place) -> bool
    ensures { result ≡ inner (slice_index text.now place.0) }
{
    text.get(place.0).is_some_and(|b| is_inner(*b))
}

// The piece that starts what is left of a text: only a character's first byte starts one.
fn start<R: Reader>(reader: &R, clear: bool, rest: &[u8]) -> Option<Piece>
    ensures { result ≡ start_of (R.Reader.reading reader.now) clear rest.now }
{
    match rest {
        [first, ..] if !is_inner(*first) => reader.piece(clear, rest),
        _ => None,
    }
}

// The first token that starts at the place or later, none from a place past the text or inside a character.
pub fn scan<R: Reader>(reader: &R, text: &[u8], from: Place) -> Option<Token>
    ensures answer { result ≡ next_by (R.Reader.reading reader.now) text.now from.0 }
    ensures lawful { SoundReadingsAreLawful }
{
    if is_inside(text, from) {
        return None;
    }
    let mut clear = is_clear(text, from);
    // over places: a piece is read from all that is left of the text there
    for at in from.0..text.len() {
        if let Some(piece) = start(reader, clear, &text[at..]) {
            return Some(Token {
                place: Place(at),
                length: piece.length,
                kind: piece.kind.number(),
                modifiers: piece.modifiers,
            });
        }
        clear = clear_after(clear, text[at]);
    }
    None
}
