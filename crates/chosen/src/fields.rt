// Fields of a script's line that hold what the library is asked of.
ghost use Rattle.std.specs.Prelude.{◌≡◌};
ghost use Rattle.std.specs.Option.{option_map};
ghost use Rattle.chosen.specs.Fields.{position_field};

use notation::{Parsed, read_mark, read_pair};
use text::places::{Column, Position};

// The position at the front of `from`, and what follows the space behind it.
pub fn position_field(from: &[u8]) -> Option<Parsed<'_, Position>>
    ensures { option_map (λ p. (p.value.line, p.value.character.0, p.rest.now)) result ≡ position_field from.now }
{
    let pair = read_pair(from)?;
    let (line, character) = pair.value;
    Some(Parsed {
        value: Position {
            line,
            character: Column(character),
        },
        rest: read_mark(pair.rest, b' ')?,
    })
}
