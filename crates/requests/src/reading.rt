// Reading the messages that go up: one function a message, one call a field. Some differ in a constant alone, and stay
// apart, so that each message can be read off by itself.
ghost use Rattle.std.specs.Prelude.{◌≡◌, ◌≤◌};
ghost use Rattle.std.specs.Option.{option_map};
ghost use Rattle.refusals.specs.Outcomes.{outcome};
ghost use Rattle.requests.specs.Messages.{meaning};
ghost use Rattle.requests.specs.Bodies.{opening_at, count_at, text_at, position_at, reading, reading_open, reading_type, reading_replace, reading_save, reading_close, reading_ask_full, reading_ask_delta};
ghost use Rattle.wire.specs.Words.{kind_number};
ghost use Rattle.wire.specs.Frames.{read_frame};
ghost use Rattle.requests.specs.Frames.{ReadIsWritten};

use crate::message::{
    ASK_DELTA, ASK_FULL, CLOSE, COUNT_LIMIT, OPEN, OPENING_LIMIT, REPLACE, Request, SAVE, TYPE,
    VALUE_LIMIT,
};
use refusals::Refusal;
use text::places::{Column, Position, Range};
use wire::header::body_start;
use wire::words::{Kind, field};

// The opening, which every body has behind the message's number.
fn read_opening(body: &[u8]) -> Option<u32>
    ensures { result ≡ opening_at body.now }
{
    field(body, 4, Kind::Opening.number(), 1, OPENING_LIMIT)
}

// A version, a request or a result.
fn read_count(body: &[u8], at: usize, kind: Kind) -> Option<u32>
    ensures { result ≡ count_at body.now at (kind_number kind) }
{
    field(body, at, kind.number(), 1, COUNT_LIMIT)
}

// A text behind its length, which ends the body: that part of the body itself.
fn read_text(body: &[u8], at: usize) -> Option<&[u8]>
    ensures { option_map (λ b. b.now) result ≡ text_at body.now at }
{
    let count = field(body, at, Kind::TextLength.number(), 0, VALUE_LIMIT)?;
    let text = body.get(at..)?.get(4..)?;
    (text.len() == count as usize).then_some(text)
}

fn read_position(body: &[u8], at: usize) -> Option<Position>
    requires { at ≤ 64 }
    ensures { result ≡ position_at body.now at }
{
    let line = field(body, at, Kind::Line.number(), 0, VALUE_LIMIT)?;
    let character = field(body, at + 4, Kind::Character.number(), 0, VALUE_LIMIT)?;
    Some(Position {
        line,
        character: Column(character),
    })
}

fn read_open(body: &[u8]) -> Option<Request<'_>>
    ensures { option_map meaning result ≡ reading_open body.now }
{
    let opening = read_opening(body)?;
    let _version = field(body, 8, Kind::Version.number(), 1, 1)?;
    let text = read_text(body, 12)?;
    Some(Request::Open { opening, text })
}

fn read_type(body: &[u8]) -> Option<Request<'_>>
    ensures { option_map meaning result ≡ reading_type body.now }
{
    let opening = read_opening(body)?;
    let version = read_count(body, 8, Kind::Version)?;
    let start = read_position(body, 12)?;
    let end = read_position(body, 20)?;
    let text = read_text(body, 28)?;
    Some(Request::Type {
        opening,
        version,
        range: Range { start, end },
        text,
    })
}

fn read_replace(body: &[u8]) -> Option<Request<'_>>
    ensures { option_map meaning result ≡ reading_replace body.now }
{
    let opening = read_opening(body)?;
    let version = read_count(body, 8, Kind::Version)?;
    let text = read_text(body, 12)?;
    Some(Request::Replace {
        opening,
        version,
        text,
    })
}

fn read_save(body: &[u8]) -> Option<Request<'_>>
    ensures { option_map meaning result ≡ reading_save body.now }
{
    let opening = read_opening(body)?;
    let version = read_count(body, 8, Kind::Version)?;
    (body.len() == 12).then_some(Request::Save { opening, version })
}

fn read_close(body: &[u8]) -> Option<Request<'_>>
    ensures { option_map meaning result ≡ reading_close body.now }
{
    let opening = read_opening(body)?;
    (body.len() == 8).then_some(Request::Close { opening })
}

fn read_ask_full(body: &[u8]) -> Option<Request<'_>>
    ensures { option_map meaning result ≡ reading_ask_full body.now }
{
    let opening = read_opening(body)?;
    let request = read_count(body, 8, Kind::Request)?;
    (body.len() == 12).then_some(Request::AskFull { opening, request })
}

fn read_ask_delta(body: &[u8]) -> Option<Request<'_>>
    ensures { option_map meaning result ≡ reading_ask_delta body.now }
{
    let opening = read_opening(body)?;
    let request = read_count(body, 8, Kind::Request)?;
    let result = read_count(body, 12, Kind::Result)?;
    (body.len() == 16).then_some(Request::AskDelta {
        opening,
        request,
        result,
    })
}

// A `match` on the number: closures in a table would have to be boxed.
fn read_body(body: &[u8]) -> Option<Request<'_>>
    ensures { option_map meaning result ≡ reading body.now }
{
    match field(body, 0, Kind::Message.number(), 0, VALUE_LIMIT)? {
        OPEN => read_open(body),
        TYPE => read_type(body),
        REPLACE => read_replace(body),
        SAVE => read_save(body),
        CLOSE => read_close(body),
        ASK_FULL => read_ask_full(body),
        ASK_DELTA => read_ask_delta(body),
        _ => None,
    }
}

// The message in a frame: 4 where the header is not as laid out, 5 where the bytes behind it are not as many as it says,
// 6 where the body is no message that goes up.
#[tactic(auto, using(crate::proofs::Only::read_is_written))]
pub fn read_request(frame: &[u8]) -> Result<Request<'_>, Refusal>
    ensures message { outcome meaning result tt ≡ read_frame reading frame.now }
    ensures only { ReadIsWritten }
{
    let start = body_start(frame)?;
    read_body(&frame[start..]).ok_or(Refusal::Body)
}
