// Whole frames.
ghost use Rattle.std.specs.Prelude.{◌≡◌, ◌+◌, ◌*◌, ◌≤◌, ◌++◌, length};
ghost use Rattle.std.specs.List.{AllByRecursion};
ghost use Rattle.wire.specs.Words.{over, words, Fitting};
ghost use Rattle.wire.specs.Frames.{frame_of};

use crate::header::put_header;
use crate::words::{Word, put_bytes, put_words};

// The most bytes of a frame.
pub const FRAME_LIMIT: usize = 10_301;

// Writes the frame whose body is the words and, behind them, the bytes of `tail`; answers its length.
pub fn put_frame(out: &mut [u8], given: &[Word], tail: &[u8]) -> usize
    requires room { 10301 ≤ length out.old }
    requires short { 4 * length given.now + length tail.now ≤ 10276 }
    requires fit { AllByRecursion Fitting given.now }
    ensures size { result ≡ length (frame_of (words given.now ++ tail.now)) }
    ensures bytes { out.new ≡ over out.old 0 (frame_of (words given.now ++ tail.now)) }
{
    let a = put_header(out, 4 * given.len() + tail.len());
    let b = put_words(out, a, given);
    put_bytes(out, b, tail)
}
