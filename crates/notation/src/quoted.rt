// A TEXT: any bytes, between double quotes. Printable ASCII but the quote and the backslash stands for itself, and so
// do bytes from 0x80 on; `\n`, `\r`, `\t`, `\"`, `\\` and `\xHH`, with hexadecimal digits of either case, stand for any.
ghost use Rattle.std.specs.Prelude.{◌≡◌, ◌<◌, length, IfSome, IfOk, vec_items};
ghost use Rattle.std.specs.Option.{option_map};
ghost use Rattle.notation.specs.Texts.{hex_value, named, byte_of, text_of, meant, last_text};

use crate::number::read_mark;
use crate::parsed::Parsed;
use std::alloc::{AllocError, Global};

// The value of a hexadecimal digit, of either case: `to_digit` with its base.
fn hex_value(digit: u8) -> Option<u8>
    ensures { result ≡ hex_value digit }
{
    char::from(digit).to_digit(16).map(|value| value as u8)
}

// The byte that a letter behind a backslash stands for: the table of the notation.
fn escaped(letter: u8) -> Option<u8>
    ensures { result ≡ named letter }
{
    match letter {
        b'n' => Some(b'\n'),
        b'r' => Some(b'\r'),
        b't' => Some(b'\t'),
        b'"' | b'\\' => Some(letter),
        _ => None,
    }
}

// The byte that the front of `from` spells. None where nothing is spelled there, as at the closing quote.
fn read_spelling(from: &[u8]) -> Option<Parsed<'_, u8>>
    ensures value { option_map (λ s. (s.value, s.rest.now)) result ≡ byte_of from.now }
    ensures shorter { IfSome result (λ s. length s.rest.now < length from.now) }
{
    match from {
        [b'\\', b'x', high, low, rest @ ..] => {
            let value = hex_value(*high)? * 16 + hex_value(*low)?;
            Some(Parsed { value, rest })
        }
        [b'\\', letter, rest @ ..] => {
            let value = escaped(*letter)?;
            Some(Parsed { value, rest })
        }
        [b'"' | b'\\' | 0..=31 | 127, ..] => None,
        [byte, rest @ ..] => Some(Parsed { value: *byte, rest }),
        [] => None,
    }
}

// The TEXT at the front of `from`. None where there is none: no opening quote, no closing one, a control byte, or a
// backslash with nothing that it may stand before. An `Option` in the `Result`, as the contract states it: not to be
// read is no failure here, so `?` does not hand it on.
pub fn read_text(heap: Global, from: &[u8]) -> Result<Option<Parsed<'_, Vec<u8>>>, AllocError>
    ensures { IfOk result (λ t. meant t ≡ text_of from.now) }
{
    let Some(mut rest) = read_mark(from, b'"') else {
        return Ok(None);
    };
    let mut bytes = Vec::new(heap);
    // no `for`: a spelling takes one to four bytes off
    while let Some(spelling) = read_spelling(rest) {
        bytes.push(spelling.value)?;
        rest = spelling.rest;
    }
    // nothing is spelled at the closing quote
    let Some(rest) = read_mark(rest, b'"') else {
        return Ok(None);
    };
    Ok(Some(Parsed { value: bytes, rest }))
}

// The bytes of the TEXT that `from` is: it stands at the front, and nothing follows it.
pub fn read_last_text(heap: Global, from: &[u8]) -> Result<Option<Vec<u8>>, AllocError>
    ensures { IfOk result (λ t. option_map vec_items t ≡ last_text from.now) }
{
    match read_text(heap, from)? {
        Some(text) if text.rest.is_empty() => Ok(Some(text.value)),
        _ => Ok(None),
    }
}
