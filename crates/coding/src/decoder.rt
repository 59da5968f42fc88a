// Tokens read back out of a coded list.
ghost use Rattle.std.specs.Prelude.{◌≡◌, ◌+◌, ◌*◌, ◌^◌, ◌<◌, List, length, take, if◌then◌else◌, nat_eq};
ghost use Rattle.std.specs.Iterator.{YieldsFirst, item_count};
ghost use Rattle.coding.specs.declared.placed.PlacedToken.{PlacedToken};
ghost use Rattle.coding.specs.Coding.{list_limit, decode, token_at, DecodingUndoesCoding};

use crate::coder::LIST_LIMIT;
use crate::placed::PlacedToken;
use std::marker::Model;

// The column that a token has, from the column of the one before where both share a line.
fn column_after(column: u64, lines: u64, columns: u64) -> u64
    requires { column + columns < 2 ^ 64 }
    ensures { result ≡ (if nat_eq lines 0 then column + columns else columns) }
{
    if lines == 0 {
        column + columns
    } else {
        columns
    }
}

// The tokens of a coded list, one after another: five numbers each, from the line and column of the token before. Seen as
// the list of those that are left. Two sums of 32-bit numbers, one for each number that is left, fit 64 bits.
#[derive(Drop)]
pub struct Decoded<'a> {
    rest: &'a [u32],
    line: u64,
    column: u64,
}

impl<'a> Model for Decoded<'a> {
    ghost Value = { List PlacedToken };

    ghost view = { λ s. decode s.line s.column s.rest.now };

    ghost invariant = { λ s. (s.line + length s.rest.now * 2 ^ 32 < 2 ^ 64) × (s.column + length s.rest.now * 2 ^ 32 < 2 ^ 64) };
}

impl<'a> Decoded<'a> {
    // A list has at most 512 tokens: numbers past the first 2,560 are not looked at.
    pub fn new(list: &'a [u32]) -> Decoded<'a>
        ensures tokens { result ≡ decode 0 0 (take list_limit list.now) }
        ensures back { DecodingUndoesCoding }
    {
        Decoded {
            rest: &list[..list.len().min(LIST_LIMIT)],
            line: 0,
            column: 0,
        }
    }
}

impl<'a> Iterator for Decoded<'a> {
    type Item = PlacedToken;

    ghost next_gives = { YieldsFirst (λ s. s) };

    ghost remaining = { item_count (λ s. s) };

    #[tactic(auto, using(crate::proofs::Fives::decode_five))]
    fn next(&mut self) -> Option<PlacedToken> {
        // a pattern: `split_first_chunk` leaves two goals that it does not
        let [lines, columns, units, kind, modifiers, rest @ ..] = self.rest else {
            return None;
        };
        let lines = u64::from(*lines);
        let line = self.line + lines;
        let column = column_after(self.column, lines, u64::from(*columns));
        *self = Decoded { rest, line, column };
        Some(PlacedToken {
            line,
            column,
            units: *units,
            kind: *kind,
            modifiers: *modifiers,
        })
    }
}

// Token k of a coded list, counted from 0, none where the list has no such token.
pub fn token_at(list: &[u32], k: usize) -> Option<PlacedToken>
    ensures token { result ≡ token_at list.now k }
    ensures back { DecodingUndoesCoding }
{
    Decoded::new(list).nth(k)
}
