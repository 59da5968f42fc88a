// A text in colours: each token by its type, out of the coded list that is decoded again.
use chosen::texts::resolve;
use chosen::tongues::Tongue;
use coding::decoder::Decoded;
use coding::placed::PlacedToken;
use notation::Encoding;
use std::alloc::{AllocError, Global};
use text::places::{Column, Place, Position, Span};

const PLAIN: &[u8] = b"\x1b[0m";

// A token type: its name, and the bytes that begin its colour.
struct Style {
    name: &'static [u8],
    colour: &'static [u8],
}

// The token types by their numbers. A wildcard stands out: it is an operator, in reverse.
static STYLES: [Style; 7] = [
    Style {
        name: b"comment",
        colour: b"\x1b[90m",
    },
    Style {
        name: b"keyword",
        colour: b"\x1b[1;34m",
    },
    Style {
        name: b"variable",
        colour: b"\x1b[36m",
    },
    Style {
        name: b"number",
        colour: b"\x1b[33m",
    },
    Style {
        name: b"operator",
        colour: b"\x1b[1;7;35m",
    },
    Style {
        name: b"string",
        colour: b"\x1b[32m",
    },
    Style {
        name: b"property",
        colour: b"\x1b[1;36m",
    },
];

// How a token of the type is painted; a type that no language here has, as the last.
fn style_of(kind: u32) -> &'static Style {
    STYLES.get(kind as usize).unwrap_or(&STYLES[6])
}

// The types of a language: the match is the table.
fn styles_of(tongue: Tongue) -> &'static [Style] {
    match tongue {
        Tongue::Routes => &STYLES[..6],
        Tongue::Settings => &STYLES,
    }
}

fn paint(painted: &mut Vec<u8>, style: &Style, bytes: &[u8]) -> Result<(), AllocError> {
    painted.extend_from_slice(style.colour)?;
    painted.extend_from_slice(bytes)?;
    painted.extend_from_slice(PLAIN)
}

// Bytes between tokens; every line end is shown as LF.
fn leave_plain(painted: &mut Vec<u8>, bytes: &[u8]) -> Result<(), AllocError> {
    // the state of the walk, and no value stands beside it
    let mut after_cr = false;
    for b in bytes {
        match *b {
            b'\r' => painted.push(b'\n')?,
            b'\n' if after_cr => {}
            _ => painted.push(*b)?,
        }
        after_cr = *b == b'\r';
    }
    Ok(())
}

fn place_of(encoding: Encoding, text: &[u8], line: u64, column: u64) -> Option<Place> {
    let position = Position {
        line: u32::try_from(line).ok()?,
        character: Column(u32::try_from(column).ok()?),
    };
    resolve(encoding, text, position).ok()
}

// The bytes of a token, by its line, column and units.
fn span_of(encoding: Encoding, text: &[u8], token: PlacedToken) -> Option<Span> {
    let end = token.column.saturating_add(token.units as u64);
    Some(Span {
        start: place_of(encoding, text, token.line, token.column)?,
        end: place_of(encoding, text, token.line, end)?,
    })
}

// The text with the tokens of a coded list in their colours.
fn paint_tokens(
    heap: Global,
    encoding: Encoding,
    text: &[u8],
    list: &[u32],
) -> Result<Vec<u8>, AllocError> {
    let mut painted = Vec::new(heap);
    let mut at = 0;
    for token in Decoded::new(list) {
        let Some(span) = span_of(encoding, text, token) else {
            break;
        };
        let start = span.start.0;
        let end = span.end.0;
        let (Some(between), Some(bytes)) = (text.get(at..start), text.get(start..end)) else {
            break;
        };
        leave_plain(&mut painted, between)?;
        paint(&mut painted, style_of(token.kind), bytes)?;
        at = end;
    }
    if let Some(left) = text.get(at..) {
        leave_plain(&mut painted, left)?;
    }
    Ok(painted)
}

// The text in colours, with a legend below it.
pub(crate) fn show(
    heap: Global,
    tongue: Tongue,
    encoding: Encoding,
    text: &[u8],
    list: &[u32],
) -> Result<Vec<u8>, AllocError> {
    let mut painted = paint_tokens(heap, encoding, text, list)?;
    painted.push(b'\n')?;
    for style in styles_of(tongue) {
        paint(&mut painted, style, style.name)?;
        painted.push(b' ')?;
    }
    painted.push(b'\n')?;
    Ok(painted)
}
