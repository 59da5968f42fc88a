// UTF-8 after RFC 3629.
#![tactic(auto)]

ghost use Rattle.std.specs.Prelude.{◌≡◌, ◌↔◌, ◌<◌, ◌≤◌, drop, IsTrue, slice_index};
ghost use Rattle.utf8.specs.Characters.{First, Second, first_char, FirstCharStands};
ghost use Rattle.utf8.specs.Grammar.{Tail, well_formed, TableIsUtf8, TestDecidesUtf8};

// Whether the byte goes on with a character.
fn is_tail(b: u8) -> bool
    ensures { IsTrue result ↔ Tail b }
{
    matches!(b, 0x80..=0xBF)
}

// Whether the byte may stand second after `first`: no overlong form, no surrogate, nothing above U+10FFFF.
fn is_second(first: u8, b: u8) -> bool
    ensures { IsTrue result ↔ Second first b }
{
    match first {
        // one arm of those that give tests
        0x00..=0xC1 | 0xF5..=0xFF => false,
        0xE0 => matches!(b, 0xA0..=0xBF),
        0xED => matches!(b, 0x80..=0x9F),
        0xF0 => matches!(b, 0x90..=0xBF),
        0xF4 => matches!(b, 0x80..=0x8F),
        _ => is_tail(b),
    }
}

// One function a length: they differ in how many bytes they take apart, and a loop over these would hide the ranges. Each
// takes them by a pattern: `first_chunk` hands over an array, and the facts of the ranges, which are of the bytes, would
// have to be carried over to it. What all four promise is `First`: it is what each is for.
fn two(bytes: &[u8]) -> Option<char>
    requires low { 192 ≤ slice_index bytes.now 0 }
    requires high { slice_index bytes.now 0 < 224 }
    ensures { First bytes.now result }
{
    let [a, b, ..] = bytes else {
        return None;
    };
    if !is_second(*a, *b) {
        return None;
    }
    char::from_u32((*a as u32 - 0xC0) * 64 + (*b as u32 - 0x80))
}

fn three(bytes: &[u8]) -> Option<char>
    requires low { 224 ≤ slice_index bytes.now 0 }
    requires high { slice_index bytes.now 0 < 240 }
    ensures { First bytes.now result }
{
    let [a, b, c, ..] = bytes else {
        return None;
    };
    if !is_second(*a, *b) || !is_tail(*c) {
        return None;
    }
    char::from_u32((*a as u32 - 0xE0) * 4096 + (*b as u32 - 0x80) * 64 + (*c as u32 - 0x80))
}

fn four(bytes: &[u8]) -> Option<char>
    requires low { 240 ≤ slice_index bytes.now 0 }
    requires high { slice_index bytes.now 0 < 248 }
    ensures { First bytes.now result }
{
    let [a, b, c, d, ..] = bytes else {
        return None;
    };
    if !is_second(*a, *b) || !is_tail(*c) || !is_tail(*d) {
        return None;
    }
    let high = (*a as u32 - 0xF0) * 64 + (*b as u32 - 0x80);
    char::from_u32(high * 4096 + (*c as u32 - 0x80) * 64 + (*d as u32 - 0x80))
}

// The character that begins the bytes: the number of leading one bits in the first of them gives its length, and is a
// count, not a kind. A pattern for the first byte too: `first` was tried, and left its facts to be carried over.
fn character(bytes: &[u8]) -> Option<char>
    ensures { First bytes.now result }
{
    let [first, ..] = bytes else {
        return None;
    };
    match first.leading_ones() {
        0 => Some(*first as char),
        2 => two(bytes),
        3 => three(bytes),
        4 => four(bytes),
        _ => None,
    }
}

// The scalar value at the place, none where no character begins: past the end, inside a character, or at bytes
// that are no UTF-8.
#[tactic(auto, using(crate::proofs::Firsts::first_is, crate::proofs::Firsts::first_char_stands, crate::proofs::Firsts::first_none, std::proofs::lemmas::Slice::between_to_end))]
pub fn scalar_at(text: &[u8], at: usize) -> Option<char>
    ensures scalar { result ≡ first_char (drop at text.now) }
    ensures meaning { FirstCharStands }
{
    character(text.get(at..)?)
}

// Whether the bytes are well-formed UTF-8.
pub fn well_formed(text: &[u8]) -> bool
    ensures test { result ≡ well_formed text.now }
    ensures decides { TestDecidesUtf8 }
    ensures table { TableIsUtf8 }
{
    let mut rest = text;
    // no `for`: a character takes one to four bytes off
    while !rest.is_empty() {
        let Some(c) = character(rest) else {
            return false;
        };
        rest = &rest[c.len_utf8()..];
    }
    true
}
