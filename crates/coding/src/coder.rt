// The relative coding of a text's tokens. A language, an encoding and a list are kept by an end, each as long as it
// likes, and a text is lent for a call: they stay four parameters.
ghost use Rattle.std.specs.Prelude.{◌≡◌, ◌+◌, ◌-◌, ◌<◌, ◌≤◌, [], ◌∷◌, ◌++◌, length, take, if◌then◌else◌, MatchResult, nat_eq};
ghost use Rattle.languages.specs.Tokens.{tokens};
ghost use Rattle.refusals.specs.Outcomes.{outcome};
ghost use Rattle.coding.specs.Coding.{fresh, code_rule, leaves, TokensAreInOrder, FreshCodingsFitWords, FirstTokensCodeFirst};

use crate::cursor::Cursor;
use languages::language::Language;
use languages::walk::{Tokens, count_in};
use lists::growing::Growing;
use refusals::Refusal;
use text::changes::Text;
use text::encodings::PositionEncoding;

// The most tokens of a list, and the numbers that these are.
pub const TOKEN_LIMIT: usize = 512;

pub const LIST_LIMIT: usize = 2560;

// One token's five numbers, where there is room for them. Five parameters: an array of them would be one more that a
// device has to hold.
fn put(
    numbers: &mut Growing<'_, u32>,
    lines: u32,
    columns: u32,
    units: u32,
    kind: u32,
    modifiers: u32,
)
    requires { numbers.old.used + 5 ≤ length numbers.old.slots.now }
    ensures items { take numbers.new.used numbers.new.slots.now ≡ take numbers.old.used numbers.old.slots.now ++ (lines ∷ (columns ∷ (units ∷ (kind ∷ (modifiers ∷ []))))) }
    ensures used { numbers.new.used ≡ numbers.old.used + 5 }
    ensures kept_length { length numbers.new.slots.now ≡ length numbers.old.slots.now }
    ensures slots_name { numbers.new.slots.ghost_name ≡ numbers.old.slots.ghost_name }
{
    numbers.push(lines).unwrap();
    numbers.push(columns).unwrap();
    numbers.push(units).unwrap();
    numbers.push(kind).unwrap();
    numbers.push(modifiers).unwrap();
}

// The column of a token, from the column of the token before where both share a line.
fn column_from(before: Cursor, start: Cursor) -> u32
    ensures { result ≡ (if nat_eq start.line before.line then start.column - before.column else start.column) }
{
    if start.line == before.line {
        start.column.saturating_sub(before.column)
    } else {
        start.column
    }
}

// Gathers the coding of a text of at most 512 tokens at the front of the list, and answers how many numbers it has.
// One cursor goes over the text once for all tokens together: each token is counted on from the end of the one before.
fn gather<L: Language, E: PositionEncoding>(
    language: &L,
    encoding: &E,
    text: Text<'_>,
    list: &mut [u32],
) -> usize
    requires few { length (tokens (L.next language.now) text.bytes.now) ≤ 512 }
    requires room { 2560 ≤ length list.old }
    ensures size { result ≡ length (fresh (E.units encoding.now) (L.next language.now) text.entry.bytes.now) }
    ensures numbers { take result list.new ≡ fresh (E.units encoding.now) (L.next language.now) text.entry.bytes.now }
{
    let mut numbers = Growing::new(list);
    let mut cursor = Cursor {
        at: 0,
        line: 0,
        column: 0,
    };
    let mut before = cursor;
    for token in Tokens::new(language, text) {
        let start = cursor.advance(encoding, text.bytes, token.place.0);
        let end = start.advance(encoding, text.bytes, start.at + token.length);
        let lines = start.line.saturating_sub(before.line);
        let columns = column_from(before, start);
        let units = end.column - start.column;
        put(
            &mut numbers,
            lines,
            columns,
            units,
            token.kind,
            token.modifiers,
        );
        before = start;
        cursor = end;
    }
    numbers.len()
}

// Codes a text into a lent list of 2,560 numbers, and answers how many it has: the list is lent, so it is no `Vec`. The
// tokens are counted before anything is written, so a refusal leaves every number as it was.
pub fn code<L: Language, E: PositionEncoding>(
    language: &L,
    encoding: &E,
    text: &[u8],
    list: &mut [u32],
) -> Result<usize, Refusal>
    ensures code { outcome (leaves list.new) result list.new ≡ code_rule (E.units encoding.now) (L.next language.now) text.now list.old }
    ensures order { TokensAreInOrder }
    ensures words { FreshCodingsFitWords }
    ensures first { FirstTokensCodeFirst }
{
    if list.len() < LIST_LIMIT {
        return Err(Refusal::Memory);
    }
    let text = Text::new(text)?;
    let count = count_in(language, text);
    if count > TOKEN_LIMIT {
        return Err(Refusal::TooManyTokens);
    }
    Ok(gather(language, encoding, text, &mut list[..LIST_LIMIT]))
}
