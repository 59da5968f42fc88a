// Texts in lent memory, and changes of them.
ghost use Rattle.std.specs.Prelude.{◌≡◌, ◌≤◌, not, length, IsTrue};
ghost use Rattle.refusals.specs.Outcomes.{outcome};
ghost use Rattle.utf8.specs.Grammar.{well_formed};
ghost use Rattle.text.specs.Laws.{ChangesOfTextsAreTexts, EarlierLinesStay};
ghost use Rattle.text.specs.Positions.{text_rule, check_rule, unsound, change_rule, leaves};

use crate::encodings::PositionEncoding;
use crate::places::Range;
use crate::positions::places;
use refusals::Refusal;
use utf8::well_formed;

// A text is kept in memory that is lent for one call, and its length by whoever lends it: nothing here owns a text.

// The most bytes that a text has, and the memory that is lent to keep one.
pub const TEXT_LIMIT: usize = 8192;

// Whether the bytes are a text: 7 where they are too many, 8 where they are ill-formed.
pub fn check(text: &[u8]) -> Result<(), Refusal>
    ensures { outcome (λ u. u) result tt ≡ check_rule text.now }
{
    if text.len() > TEXT_LIMIT {
        return Err(Refusal::LongText);
    }
    if !well_formed(text) {
        return Err(Refusal::IllFormed);
    }
    Ok(())
}

// Bytes that are a text.
#[derive(Clone, Copy)]
pub struct Text<'a> {
    pub bytes: &'a [u8],
    ghost whole: { IsTrue (well_formed bytes.now) },
    ghost short: { length bytes.now ≤ 8192 },
}

impl<'a> Text<'a> {
    // The bytes as a text: 7 where they are too many, 8 where they are ill-formed.
    pub fn new(bytes: &'a [u8]) -> Result<Text<'a>, Refusal>
        ensures { outcome (λ t. t.bytes.now) result tt ≡ text_rule bytes.now }
    {
        check(bytes)?;
        Ok(Text { bytes })
    }
}

// Whether the memory can keep any text, and its first `length` bytes are one.
pub fn holds_text(memory: &[u8], length: usize) -> bool
    ensures { result ≡ not (unsound memory.now length) }
{
    memory.len() >= TEXT_LIMIT && length <= TEXT_LIMIT && well_formed(&memory[..length])
}

// Replaces the range of the text in the first `length` bytes of the memory by the inserted text, and answers the
// new length. A refusal leaves every byte as it was; bytes past `TEXT_LIMIT` are never written.
#[tactic(auto, using(crate::proofs::Lawful::changes_of_texts_are_texts, crate::proofs::Lawful::earlier_lines_stay))]
pub fn change<E: PositionEncoding>(
    encoding: &E,
    memory: &mut [u8],
    length: usize,
    range: Range,
    inserted: &[u8],
) -> Result<usize, Refusal>
    ensures change { outcome (leaves memory.new) result memory.new ≡ change_rule (E.units encoding.now) memory.old length range inserted.now }
    ensures texts { ChangesOfTextsAreTexts }
    ensures lines { EarlierLinesStay }
{
    if !holds_text(memory, length) {
        return Err(Refusal::Memory);
    }
    check(inserted)?;
    let span = places(encoding, &memory[..length], range)?;
    lists::splice(
        // `0..`: with `..` alone the bound of what is lent on was tried and not proved
        &mut memory[0..TEXT_LIMIT],
        length,
        span.start.0,
        span.end.0,
        inserted,
    )
    .ok_or(Refusal::ResultTooLong)
}
