// The commands of a script, each read from a line.
ghost use Rattle.std.specs.Prelude.{◌≡◌};
ghost use Rattle.commission.specs.Fields.{blank, passed_over, lend_of};

use chosen::fields::position_field;
use chosen::tongues::Tongue;
use notation::{Encoding, Unread, read_encoding, read_last_text, read_name, read_number};
use std::alloc::Global;
use text::places::Range;

#[derive(Drop)]
pub enum Command {
    Choose(Choice),
    Lend(usize),
    New,
    State,
    Show,
    Call(Call),
}

// What stays once a call was made.
#[derive(Clone, Copy)]
pub enum Choice {
    Encoding(Encoding),
    Language(Tongue),
}

// What the library is asked to do: each is taken, or refused by a number.
#[derive(Drop)]
pub enum Call {
    Open(Vec<u8>),
    Replace(Vec<u8>),
    Type(Typing),
}

// A text that is typed over a range of the text at hand.
#[derive(Drop)]
pub struct Typing {
    pub range: Range,
    pub inserted: Vec<u8>,
}

// The most memory that a script may lend, so that no line makes the program ask for gigabytes.
const MOST_LENT: u32 = 65_536;

impl Call {
    // The word that begins the call. It is no `Display`, which would leave out what the call brings.
    pub(crate) fn word(&self) -> &'static str {
        match self {
            Call::Open(_) => "open",
            Call::Replace(_) => "replace",
            Call::Type(_) => "type",
        }
    }
}

// Whether a line has nothing but spaces.
fn is_blank(line: &[u8]) -> bool
    ensures { result ≡ blank line.now }
{
    line.iter().all(|byte| *byte == b' ')
}

// Whether a line is passed over: a comment, or blank.
pub(crate) fn is_passed_over(line: &[u8]) -> bool
    ensures { result ≡ passed_over line.now }
{
    line.starts_with(b"#") || is_blank(line)
}

fn read_lend(fields: &[u8]) -> Option<Command>
    ensures { result ≡ lend_of fields.now }
{
    let number = read_number(fields)?;
    let fits = number.rest.is_empty() && number.value <= MOST_LENT;
    fits.then_some(Command::Lend(number.value as usize))
}

fn read_typing(heap: Global, fields: &[u8]) -> Result<Typing, Unread> {
    let start = position_field(fields).ok_or(Unread::IllFormed)?;
    let end = position_field(start.rest).ok_or(Unread::IllFormed)?;
    let inserted = read_last_text(heap, end.rest)?.ok_or(Unread::IllFormed)?;
    let range = Range {
        start: start.value,
        end: end.value,
    };
    Ok(Typing { range, inserted })
}

// The words that begin a call.
#[derive(Clone, Copy)]
enum Word {
    Open,
    Replace,
    Type,
}

fn read_call(heap: Global, line: &[u8]) -> Result<Call, Unread> {
    let word = read_name(
        line,
        &[
            (b"open ", Word::Open),
            (b"replace ", Word::Replace),
            (b"type ", Word::Type),
        ],
    )
    .ok_or(Unread::IllFormed)?;
    match word.value {
        Word::Open => read_last_text(heap, word.rest)?
            .map(Call::Open)
            .ok_or(Unread::IllFormed),
        Word::Replace => read_last_text(heap, word.rest)?
            .map(Call::Replace)
            .ok_or(Unread::IllFormed),
        Word::Type => read_typing(heap, word.rest).map(Call::Type),
    }
}

// The command that is no call, none where the line is another.
fn read_setting(line: &[u8]) -> Option<Command> {
    if let Some(encoding) = read_encoding(line) {
        let choice = Choice::Encoding(encoding.value);
        return encoding.rest.is_empty().then_some(Command::Choose(choice));
    }
    // the one word with a number behind it
    if let Some(fields) = line.strip_prefix(b"lend ") {
        return read_lend(fields);
    }
    match line {
        b"routes" => Some(Command::Choose(Choice::Language(Tongue::Routes))),
        b"settings" => Some(Command::Choose(Choice::Language(Tongue::Settings))),
        b"new" => Some(Command::New),
        b"state" => Some(Command::State),
        b"show" => Some(Command::Show),
        _ => None,
    }
}

// The command on a line.
pub(crate) fn read_command(heap: Global, line: &[u8]) -> Result<Command, Unread> {
    // no `?`: a line that is no call may be another command
    match read_call(heap, line) {
        Ok(call) => Ok(Command::Call(call)),
        Err(Unread::IllFormed) => read_setting(line).ok_or(Unread::IllFormed),
        Err(error) => Err(error),
    }
}
