// The lines of a script end at LF. The last need not end.
ghost use Rattle.std.specs.Prelude.{◌≡◌, ◌<◌, length};
ghost use Rattle.std.specs.List.{position};
ghost use Rattle.std.specs.Iterator.{YieldsFirstRef, item_count};
ghost use Rattle.notation.specs.ScriptLines.{is_end, line_of, lines_of, lines_left};

use crate::parsed::Parsed;

// Where the first end stands.
fn line_end(from: &[u8]) -> Option<usize>
    ensures { result ≡ position is_end from.now }
{
    from.iter().position(|byte| *byte == b'\n')
}

// The bytes of the first line without its end, and what follows the end.
#[tactic(auto, using(crate::proofs::Steps::line_ended, crate::proofs::Steps::line_open))]
pub fn first_line(from: &[u8]) -> Parsed<'_, &[u8]>
    ensures value { (result.value.now, result.rest.now) ≡ line_of from.now }
    ensures shorter { 0 < length from.now → length result.rest.now < length from.now }
{
    match line_end(from) {
        Some(end) => Parsed {
            value: &from[..end],
            rest: &from[end + 1..],
        },
        None => Parsed {
            value: from,
            rest: &[],
        },
    }
}

// The lines of a script, one after another. Not a `Parsed`: it is what is left alone.
#[derive(Clone, Copy)]
pub struct ScriptLines<'a> {
    rest: &'a [u8],
}

pub fn lines(script: &[u8]) -> ScriptLines<'_>
    ensures { lines_left result ≡ lines_of script.now }
{
    ScriptLines { rest: script }
}

impl<'a> Iterator for ScriptLines<'a> {
    type Item = &'a [u8];

    ghost next_gives = { YieldsFirstRef lines_left };

    ghost remaining = { item_count lines_left };

    fn next(&mut self) -> Option<&'a [u8]> {
        if self.rest.is_empty() {
            return None;
        }
        let line = first_line(self.rest);
        self.rest = line.rest;
        Some(line.value)
    }
}
