// The line and column of a place, counted on from an earlier place.
ghost use Rattle.std.specs.Prelude.{◌≡◌, ◌≤◌, length};
ghost use Rattle.coding.specs.Placing.{IsAt};

use text::encodings::PositionEncoding;
use text::lines::ends_line;
use text::positions::units_at;

// A place of a text with its line and its column.
#[derive(Clone, Copy)]
pub(crate) struct Cursor {
    pub at: usize,
    pub line: u32,
    pub column: u32,
}

impl Cursor {
    // The cursor moved on to a later place. Each byte is looked at once, however many moves there are.
    #[tactic(auto, using(crate::proofs::Moving::line_more, crate::proofs::Moving::column_more, crate::proofs::Moving::line_le))]
    pub(crate) fn advance<E: PositionEncoding>(self, encoding: &E, text: &[u8], to: usize) -> Cursor
        requires here { IsAt (E.units encoding.now) text.now self }
        requires forward { self.«at» ≤ to }
        requires within { to ≤ length text.now }
        requires short { length text.now ≤ 8192 }
        ensures at { result.«at» ≡ to }
        ensures there { IsAt (E.units encoding.now) text.now result }
    {
        let mut line = self.line;
        let mut column = self.column;
        // over places: whether a line ends behind a byte turns on the byte after it
        for at in self.at..to {
            if ends_line(text, at) {
                line += 1;
                column = 0;
            } else {
                column += units_at(encoding, text, at);
            }
        }
        Cursor {
            at: to,
            line,
            column,
        }
    }
}
