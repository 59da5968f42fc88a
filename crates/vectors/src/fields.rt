// The fields of a case.
use chosen::fields::position_field;
use notation::{
    Encoding, Parsed, Unread, read_encoding, read_last_text, read_mark, read_number, read_text,
};
use std::alloc::Global;
use text::places::{Position, Range};

// A position in an encoding. A struct of this program's own, as `Order` is: its fields are a case's.
#[derive(Clone, Copy)]
pub struct Spot {
    pub encoding: Encoding,
    pub position: Position,
}

// What a change is asked of, but for the texts.
#[derive(Clone, Copy)]
pub struct Order {
    pub encoding: Encoding,
    // How many bytes the call is lent: its answer turns on that.
    pub lent: usize,
    pub range: Range,
}

// Two texts.
#[derive(Drop)]
pub struct Both {
    pub old: Vec<u8>,
    pub new: Vec<u8>,
}

// The fields of `place` and `cut` up to the text.
pub(crate) fn spot_fields(from: &[u8]) -> Option<Parsed<'_, Spot>> {
    let encoding = read_encoding(from)?;
    let position = position_field(read_mark(encoding.rest, b' ')?)?;
    Some(Parsed {
        value: Spot {
            encoding: encoding.value,
            position: position.value,
        },
        rest: position.rest,
    })
}

// The fields of `change` up to the texts.
pub(crate) fn order_fields(from: &[u8]) -> Option<Parsed<'_, Order>> {
    let encoding = read_encoding(from)?;
    let lent = read_number(read_mark(encoding.rest, b' ')?)?;
    let start = position_field(read_mark(lent.rest, b' ')?)?;
    let end = position_field(start.rest)?;
    Some(Parsed {
        value: Order {
            encoding: encoding.value,
            lent: lent.value as usize,
            range: Range {
                start: start.value,
                end: end.value,
            },
        },
        rest: end.rest,
    })
}

// Two texts that are the last fields.
pub(crate) fn last_texts(heap: Global, from: &[u8]) -> Result<Both, Unread> {
    let old = read_text(heap, from)?.ok_or(Unread::IllFormed)?;
    let rest = read_mark(old.rest, b' ').ok_or(Unread::IllFormed)?;
    let new = read_last_text(heap, rest)?.ok_or(Unread::IllFormed)?;
    Ok(Both {
        old: old.value,
        new,
    })
}
