// The answer to each case.
ghost use Rattle.std.specs.Prelude.{◌≡◌, [], ◌++◌, IfOk, if◌then◌else◌, string_bytes, codes, decimal};
ghost use Rattle.notation.specs.Texts.{written};
ghost use Rattle.refusals.specs.Numbers.{number_of};
ghost use Rattle.vectors.specs.Fields.{settled_text};

use crate::fields::{Both, Order, Spot, last_texts, order_fields, spot_fields};
use chosen::texts::{change, cut, resolve};
use notation::{Encoding, Unread, read_last_text, read_name, write_text};
use refusals::Refusal;
use std::alloc::{AllocError, Global};
use text::lines::{line_content, line_count, line_start};
use text::places::Position;
use utf8::well_formed;

fn answer_utf8(heap: Global, fields: &[u8]) -> Result<String, Unread> {
    let text = read_last_text(heap, fields)?.ok_or(Unread::IllFormed)?;
    let word = if well_formed(text.as_slice()) {
        "well-formed"
    } else {
        "ill-formed"
    };
    Ok(String::from_str(heap, word)?)
}

fn answer_lines(heap: Global, fields: &[u8]) -> Result<String, Unread> {
    let bytes = read_last_text(heap, fields)?.ok_or(Unread::IllFormed)?;
    let text = bytes.as_slice();
    let count = line_count(text);
    let mut answer = format!(in heap; "{count}")?;
    let lines = (0..u32::MAX).map_while(|line| {
        let start = line_start(text, line)?;
        Some((start, line_content(text, line)?))
    });
    for (start, content) in lines {
        let place = start.0;
        let length = content.len();
        write!(answer, " {place}+{length}")?;
    }
    Ok(answer)
}

// The answer of a call: 0 and the value, or the refusal's number.
fn settled(heap: Global, outcome: Result<usize, Refusal>) -> Result<String, AllocError>
    ensures { IfOk result (λ s. string_bytes s ≡ settled_text outcome) }
{
    match outcome {
        Ok(value) => format!(in heap; "0 {value}"),
        Err(refusal) => format!(in heap; "{}", refusal.number()),
    }
}

// The answer of a call at a position in a text.
fn answer_at<F: FnOnce(Encoding, &[u8], Position) -> Result<usize, Refusal>>(
    heap: Global,
    fields: &[u8],
    call: F,
) -> Result<String, Unread>
    requires { F.IsAlwaysCallable call }
{
    let spot = spot_fields(fields).ok_or(Unread::IllFormed)?;
    let text = read_last_text(heap, spot.rest)?.ok_or(Unread::IllFormed)?;
    let Spot { encoding, position } = spot.value;
    let outcome = call(encoding, text.as_slice(), position);
    Ok(settled(heap, outcome)?)
}

fn answer_place(heap: Global, fields: &[u8]) -> Result<String, Unread> {
    answer_at(heap, fields, |encoding, text, position| {
        resolve(encoding, text, position).map(|place| place.0)
    })
}

fn answer_cut(heap: Global, fields: &[u8]) -> Result<String, Unread> {
    answer_at(heap, fields, |encoding, text, position| {
        cut(encoding, text, position).map(|column| column.0 as usize)
    })
}

// The answer of a change that was taken: 0 and the text.
fn taken(heap: Global, text: &[u8]) -> Result<String, AllocError>
    ensures { IfOk result (λ s. string_bytes s ≡ codes "0 " ++ written text.now) }
{
    let mut answer = String::from_str(heap, "0 ")?;
    write_text(text, &mut answer)?;
    Ok(answer)
}

// The answer of a change that was refused: after the refusal the lent memory has to be as it was.
fn refused(heap: Global, refusal: Refusal, same: bool) -> Result<String, AllocError>
    ensures { IfOk result (λ s. string_bytes s ≡ decimal (number_of refusal) ++ (if same then [] else codes " changed")) }
{
    let mut answer = settled(heap, Err(refusal))?;
    answer.push_str(if same { "" } else { " changed" })?;
    Ok(answer)
}

// Puts the old text at the front of memory that is long enough, lends the first bytes of it, and changes the text.
fn try_change(heap: Global, order: Order, texts: Both) -> Result<String, AllocError> {
    let Both { old, new } = texts;
    let size = old.len();
    let mut before = old;
    before.resize(size.max(order.lent), 0)?;
    let mut memory = before.clone()?;
    let lent = &mut memory[..order.lent];
    match change(order.encoding, lent, size, order.range, new.as_slice()) {
        Ok(size) => taken(heap, &memory[..size]),
        Err(refusal) => refused(heap, refusal, memory == before),
    }
}

fn answer_change(heap: Global, fields: &[u8]) -> Result<String, Unread> {
    let order = order_fields(fields).ok_or(Unread::IllFormed)?;
    let texts = last_texts(heap, order.rest)?;
    Ok(try_change(heap, order.value, texts)?)
}

// What a case asks.
#[derive(Clone, Copy)]
enum Case {
    Utf8,
    Lines,
    Place,
    Cut,
    Change,
}

fn answer_case(heap: Global, line: &[u8]) -> Result<String, Unread> {
    let case = read_name(
        line,
        &[
            (b"utf8 ", Case::Utf8),
            (b"lines ", Case::Lines),
            (b"place ", Case::Place),
            (b"cut ", Case::Cut),
            (b"change ", Case::Change),
        ],
    )
    .ok_or(Unread::IllFormed)?;
    match case.value {
        Case::Utf8 => answer_utf8(heap, case.rest),
        Case::Lines => answer_lines(heap, case.rest),
        Case::Place => answer_place(heap, case.rest),
        Case::Cut => answer_cut(heap, case.rest),
        Case::Change => answer_change(heap, case.rest),
    }
}

pub(crate) fn answer(heap: Global, line: &[u8]) -> Result<String, AllocError> {
    match answer_case(heap, line) {
        Ok(answer) => Ok(answer),
        Err(Unread::IllFormed) => String::from_str(heap, "no case"),
        Err(Unread::NoMemory(error)) => Err(error),
    }
}
