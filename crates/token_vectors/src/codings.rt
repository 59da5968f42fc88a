// Numbers and tokens as the cases write them.
use coding::decoder::Decoded;
use coding::placed::PlacedToken;
use languages::language::Language;
use languages::token::Token;
use languages::walk::Tokens;
use notation::{Unread, read_mark, read_number};
use std::alloc::{AllocError, Global};
use text::changes::Text;

// Numbers with commas between them.
pub(crate) fn write_numbers(heap: Global, numbers: &[u32]) -> Result<String, AllocError> {
    let mut written = String::new(heap);
    for number in numbers {
        if !written.is_empty() {
            written.push(',')?;
        }
        write!(written, "{number}")?;
    }
    Ok(written)
}

// Numbers with commas between them, and nothing behind the last.
pub(crate) fn read_numbers(heap: Global, from: &[u8]) -> Result<Vec<u32>, Unread> {
    let mut numbers = Vec::new(heap);
    let mut rest = from;
    // no `split` at the commas: a number ends by itself, and a split looks at each of its bytes once more
    loop {
        let number = read_number(rest).ok_or(Unread::IllFormed)?;
        numbers.push(number.value).map_err(AllocError::from)?;
        if number.rest.is_empty() {
            return Ok(numbers);
        }
        rest = read_mark(number.rest, b',').ok_or(Unread::IllFormed)?;
    }
}

// The tokens of a coded list.
pub(crate) fn write_decoded(heap: Global, list: &[u32]) -> Result<String, AllocError> {
    let mut written = String::new(heap);
    for token in Decoded::new(list) {
        if !written.is_empty() {
            written.push(' ')?;
        }
        let PlacedToken {
            line,
            column,
            units,
            kind,
            modifiers,
        } = token;
        write!(written, "{line}:{column}+{units}:{kind}:{modifiers}")?;
    }
    Ok(written)
}

// The tokens of a text.
pub(crate) fn write_tokens<L: Language>(
    heap: Global,
    language: &L,
    text: Text<'_>,
) -> Result<String, AllocError> {
    let mut written = String::new(heap);
    for token in Tokens::new(language, text) {
        let Token {
            place,
            length,
            kind,
            modifiers,
        } = token;
        write!(written, " {}+{length}:{kind}:{modifiers}", place.0)?;
    }
    Ok(written)
}
