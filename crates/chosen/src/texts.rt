// Calls on texts, in an encoding that was named. The three units are types, and a closure that is passed cannot be
// called at each of them: a match in each call is plainer than a trait with a struct for each call. The calls take
// what those of `text` take: memory is lent, with the text's length beside it, and an encoding is kept where a text is
// lent.
ghost use Rattle.std.specs.Prelude.{◌≡◌, ◌≤◌, length, IfOk};
ghost use Rattle.refusals.specs.Outcomes.{outcome};
ghost use Rattle.text.specs.Positions.{resolve_rule, cut_rule, change_rule, leaves};
ghost use Rattle.chosen.specs.Names.{units_of};

use notation::Encoding;
use refusals::Refusal;
use text::encodings::{Utf8Units, Utf16Units, Utf32Units};
use text::places::{Column, Place, Position, Range};
use text::{changes, positions};

pub fn resolve(encoding: Encoding, text: &[u8], position: Position) -> Result<Place, Refusal>
    ensures { outcome (λ p. p.0) result tt ≡ resolve_rule (units_of encoding) text.now position }
{
    match encoding {
        Encoding::Utf8 => positions::resolve(&Utf8Units, text, position),
        Encoding::Utf16 => positions::resolve(&Utf16Units, text, position),
        Encoding::Utf32 => positions::resolve(&Utf32Units, text, position),
    }
}

pub fn cut(encoding: Encoding, text: &[u8], position: Position) -> Result<Column, Refusal>
    ensures { outcome (λ k. k.0) result tt ≡ cut_rule (units_of encoding) text.now position }
{
    match encoding {
        Encoding::Utf8 => positions::cut(&Utf8Units, text, position),
        Encoding::Utf16 => positions::cut(&Utf16Units, text, position),
        Encoding::Utf32 => positions::cut(&Utf32Units, text, position),
    }
}

pub fn change(
    encoding: Encoding,
    memory: &mut [u8],
    size: usize,
    range: Range,
    inserted: &[u8],
) -> Result<usize, Refusal>
    ensures rule { outcome (leaves memory.new) result memory.new ≡ change_rule (units_of encoding) memory.old size range inserted.now }
    ensures within { IfOk result (λ n. n ≤ length memory.old) }
    ensures short { IfOk result (λ n. n ≤ 8192) }
{
    match encoding {
        Encoding::Utf8 => changes::change(&Utf8Units, memory, size, range, inserted),
        Encoding::Utf16 => changes::change(&Utf16Units, memory, size, range, inserted),
        Encoding::Utf32 => changes::change(&Utf32Units, memory, size, range, inserted),
    }
}
