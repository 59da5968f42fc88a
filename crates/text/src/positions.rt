// Positions: from a line and a column to a place, in any encoding. The encoding and the text stay two parameters: an
// end keeps the one and lends the other for a call.
ghost use Rattle.std.specs.Prelude.{◌≡◌, ◌≤◌, min, length, drop, IfSome};
ghost use Rattle.refusals.specs.Outcomes.{outcome};
ghost use Rattle.text.specs.Columns.{wide, line_units, seek};
ghost use Rattle.text.specs.Laws.{PlacesLieBetweenCharacters, PlacesCountTheirColumn, InsideMeansNoSuchColumn, CutPositionsKeepTheirPlace, UnitsAreOfCharacters};
ghost use Rattle.text.specs.Positions.{along_rule, resolve_rule, cut_rule, range_rule};

use crate::encodings::PositionEncoding;
use crate::lines::{is_line_end, line_start};
use crate::places::{Column, Place, Position, Range, Span};
use refusals::Refusal;
use utf8::scalar_at;

// The units of the character that begins at the place, 0 where none does.
#[tactic(auto, unfolding(crate::specs::Columns::wide, crate::specs::Columns::counted))]
pub fn units_at<E: PositionEncoding>(encoding: &E, text: &[u8], at: usize) -> u32
    ensures { result ≡ wide (E.units encoding.now) (drop at text.now) }
{
    scalar_at(text, at).map_or(0, |c| encoding.units_of(c))
}

// How many bytes into the line that the bytes begin with its column is, or where the line's content ends if it has fewer
// units; none inside a character. It goes byte by byte: a byte inside a character counts nothing.
fn walk<E: PositionEncoding>(encoding: &E, bytes: &[u8], character: Column) -> Option<usize>
    ensures place { result ≡ seek (E.units encoding.now) bytes.now character.0 }
    ensures within { IfSome result (λ n. n ≤ length bytes.now) }
{
    let mut left = character.0;
    for (at, b) in bytes.iter().enumerate() {
        if is_line_end(*b) {
            return Some(at);
        }
        let units = units_at(encoding, bytes, at);
        if units > 0 && left == 0 {
            return Some(at);
        }
        if left < units {
            return None;
        }
        left -= units;
    }
    Some(bytes.len())
}

// The place of a column of the line that starts at the place.
fn place_along<E: PositionEncoding>(
    encoding: &E,
    text: &[u8],
    start: Place,
    character: Column,
) -> Result<Place, Refusal>
    requires { start.0 ≤ length text.now }
    ensures { outcome (λ p. p.0) result tt ≡ along_rule (E.units encoding.now) text.now start.0 character.0 }
{
    let along = walk(encoding, &text[start.0..], character).ok_or(Refusal::InsideCharacter)?;
    Ok(Place(start.0 + along))
}

// The place of a position.
#[tactic(auto, using(crate::proofs::Lawful::places_count_their_column, crate::proofs::Lawful::inside_means_no_such_column))]
pub fn resolve<E: PositionEncoding>(
    encoding: &E,
    text: &[u8],
    position: Position,
) -> Result<Place, Refusal>
    ensures place { outcome (λ p. p.0) result tt ≡ resolve_rule (E.units encoding.now) text.now position }
    ensures between { PlacesLieBetweenCharacters }
    ensures column { PlacesCountTheirColumn }
    ensures inner { InsideMeansNoSuchColumn }
{
    let start = line_start(text, position.line).ok_or(Refusal::NoLine)?;
    place_along(encoding, text, start, position.character)
}

// The units of the content of the line that the bytes begin with, or `most` if there are more.
fn measure<E: PositionEncoding>(encoding: &E, bytes: &[u8], most: Column) -> Column
    ensures { result.0 ≡ min most.0 (line_units (E.units encoding.now) bytes.now) }
{
    let mut left = most.0;
    for (at, b) in bytes.iter().enumerate() {
        if is_line_end(*b) {
            break;
        }
        left = left.saturating_sub(units_at(encoding, bytes, at));
    }
    Column(most.0 - left)
}

// The character of a position, cut to its line's length.
#[tactic(auto, using(crate::proofs::Lawful::units_are_of_characters))]
pub fn cut<E: PositionEncoding>(
    encoding: &E,
    text: &[u8],
    position: Position,
) -> Result<Column, Refusal>
    ensures column { outcome (λ k. k.0) result tt ≡ cut_rule (E.units encoding.now) text.now position }
    ensures place { CutPositionsKeepTheirPlace }
    ensures characters { UnitsAreOfCharacters }
{
    let start = line_start(text, position.line).ok_or(Refusal::NoLine)?;
    Ok(measure(encoding, &text[start.0..], position.character))
}

// The places of a range. Each number is tried over both positions before the next.
pub fn places<E: PositionEncoding>(encoding: &E, text: &[u8], range: Range) -> Result<Span, Refusal>
    ensures { outcome (λ s. (s.start.0, s.end.0)) result tt ≡ range_rule (E.units encoding.now) text.now range }
{
    let first = line_start(text, range.start.line).ok_or(Refusal::NoLine)?;
    let last = line_start(text, range.end.line).ok_or(Refusal::NoLine)?;
    let start = place_along(encoding, text, first, range.start.character)?;
    let end = place_along(encoding, text, last, range.end.character)?;
    if end.0 < start.0 {
        return Err(Refusal::StartAfterEnd);
    }
    Ok(Span { start, end })
}
