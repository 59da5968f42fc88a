// Writing the messages that go up: one function a message, each the table of its words, also where two tables differ in a
// constant alone.
ghost use Rattle.std.specs.Prelude.{◌≡◌, length};
ghost use Rattle.refusals.specs.Outcomes.{outcome};
ghost use Rattle.requests.specs.Messages.{meaning, ranged, text_of, openings, counts, positions, up_open, up_type, up_replace, up_save, up_close, up_ask_full, up_ask_delta};
ghost use Rattle.requests.specs.Frames.{write_rule, Writable, Writes, leaves, WrittenIsRead, FramesAreShort};

use crate::message::{
    ASK_DELTA, ASK_FULL, CLOSE, COUNT_LIMIT, OPEN, OPENING_LIMIT, REPLACE, Request, SAVE, TYPE,
    VALUE_LIMIT,
};
use refusals::Refusal;
use text::changes::TEXT_LIMIT;
use text::places::{Position, Range};
use wire::frames::{FRAME_LIMIT, put_frame};
use wire::words::Kind;

fn write_open(frame: &mut [u8], opening: u32, text: &[u8]) -> usize
    requires { Writable frame.old (up_open opening text.now) }
    ensures { Writes frame.old frame.new (up_open opening text.now) result }
{
    let words = [
        Kind::Message.word(OPEN),
        Kind::Opening.word(opening),
        Kind::Version.word(1),
        Kind::TextLength.word(text.len() as u32),
    ];
    put_frame(frame, &words, text)
}

// Its parameters are the fields of the message.
fn write_type(frame: &mut [u8], opening: u32, version: u32, range: Range, text: &[u8]) -> usize
    requires { Writable frame.old (up_type opening version range text.now) }
    ensures { Writes frame.old frame.new (up_type opening version range text.now) result }
{
    let words = [
        Kind::Message.word(TYPE),
        Kind::Opening.word(opening),
        Kind::Version.word(version),
        Kind::Line.word(range.start.line),
        Kind::Character.word(range.start.character.0),
        Kind::Line.word(range.end.line),
        Kind::Character.word(range.end.character.0),
        Kind::TextLength.word(text.len() as u32),
    ];
    put_frame(frame, &words, text)
}

fn write_replace(frame: &mut [u8], opening: u32, version: u32, text: &[u8]) -> usize
    requires { Writable frame.old (up_replace opening version text.now) }
    ensures { Writes frame.old frame.new (up_replace opening version text.now) result }
{
    let words = [
        Kind::Message.word(REPLACE),
        Kind::Opening.word(opening),
        Kind::Version.word(version),
        Kind::TextLength.word(text.len() as u32),
    ];
    put_frame(frame, &words, text)
}

fn write_save(frame: &mut [u8], opening: u32, version: u32) -> usize
    requires { Writable frame.old (up_save opening version) }
    ensures { Writes frame.old frame.new (up_save opening version) result }
{
    let words = [
        Kind::Message.word(SAVE),
        Kind::Opening.word(opening),
        Kind::Version.word(version),
    ];
    put_frame(frame, &words, &[])
}

fn write_close(frame: &mut [u8], opening: u32) -> usize
    requires { Writable frame.old (up_close opening) }
    ensures { Writes frame.old frame.new (up_close opening) result }
{
    let words = [Kind::Message.word(CLOSE), Kind::Opening.word(opening)];
    put_frame(frame, &words, &[])
}

fn write_ask_full(frame: &mut [u8], opening: u32, request: u32) -> usize
    requires { Writable frame.old (up_ask_full opening request) }
    ensures { Writes frame.old frame.new (up_ask_full opening request) result }
{
    let words = [
        Kind::Message.word(ASK_FULL),
        Kind::Opening.word(opening),
        Kind::Request.word(request),
    ];
    put_frame(frame, &words, &[])
}

fn write_ask_delta(frame: &mut [u8], opening: u32, request: u32, held: u32) -> usize
    requires { Writable frame.old (up_ask_delta opening request held) }
    ensures { Writes frame.old frame.new (up_ask_delta opening request held) result }
{
    let words = [
        Kind::Message.word(ASK_DELTA),
        Kind::Opening.word(opening),
        Kind::Request.word(request),
        Kind::Result.word(held),
    ];
    put_frame(frame, &words, &[])
}

// Two ranges of a line each: all that they share is `contains`.
fn is_opening(n: u32) -> bool
    ensures { result ≡ openings n }
{
    (1..=OPENING_LIMIT).contains(&n)
}

// A version, a request or a result.
fn is_count(n: u32) -> bool
    ensures { result ≡ counts n }
{
    (1..=COUNT_LIMIT).contains(&n)
}

fn is_position(position: Position) -> bool
    ensures { result ≡ positions position }
{
    position.line <= VALUE_LIMIT && position.character.0 <= VALUE_LIMIT
}

// Whether each value of the message is in its range. A `match`, here and below: each message has fields of its own.
fn in_range(message: Request<'_>) -> bool
    ensures { result ≡ ranged (meaning message.entry) }
{
    match message {
        Request::Open { opening, .. } => is_opening(opening),
        Request::Type {
            opening,
            version,
            range,
            ..
        } => is_opening(opening)
            && is_count(version)
            && is_position(range.start)
            && is_position(range.end),
        Request::Replace {
            opening,
            version,
            ..
        } => is_opening(opening) && is_count(version),
        Request::Save { opening, version } => is_opening(opening) && is_count(version),
        Request::Close { opening } => is_opening(opening),
        Request::AskFull { opening, request } => is_opening(opening) && is_count(request),
        Request::AskDelta {
            opening,
            request,
            result,
        } => is_opening(opening) && is_count(request) && is_count(result),
    }
}

fn text_size(message: Request<'_>) -> usize
    ensures { result ≡ length (text_of (meaning message.entry)) }
{
    match message {
        Request::Open { text, .. } | Request::Type { text, .. } | Request::Replace { text, .. } => {
            text.len()
        }
        // the others bring no text
        _ => 0,
    }
}

fn write_message(frame: &mut [u8], message: Request<'_>) -> usize
    requires { Writable frame.old (meaning message) }
    ensures { Writes frame.old frame.new (meaning message.entry) result }
{
    match message {
        Request::Open { opening, text } => write_open(frame, opening, text),
        Request::Type {
            opening,
            version,
            range,
            text,
        } => write_type(frame, opening, version, range, text),
        Request::Replace {
            opening,
            version,
            text,
        } => write_replace(frame, opening, version, text),
        Request::Save { opening, version } => write_save(frame, opening, version),
        Request::Close { opening } => write_close(frame, opening),
        Request::AskFull { opening, request } => write_ask_full(frame, opening, request),
        Request::AskDelta {
            opening,
            request,
            result,
        } => write_ask_delta(frame, opening, request, result),
    }
}

// Writes the frame of a message to the front of a lent slice, and answers its length: 1 where the slice has fewer than
// 10,301 bytes, 6 where a value is out of its range, 7 where the text is too long.
#[tactic(auto, using(crate::proofs::Back::written_is_read, crate::proofs::Back::frames_are_short))]
pub fn write_request(frame: &mut [u8], message: Request<'_>) -> Result<usize, Refusal>
    ensures rule { outcome (leaves frame.new) result frame.new ≡ write_rule frame.old (meaning message.entry) }
    ensures back { WrittenIsRead }
    ensures short { FramesAreShort }
{
    if frame.len() < FRAME_LIMIT {
        return Err(Refusal::Memory);
    }
    if !in_range(message) {
        return Err(Refusal::Body);
    }
    if text_size(message) > TEXT_LIMIT {
        return Err(Refusal::LongText);
    }
    Ok(write_message(frame, message))
}
