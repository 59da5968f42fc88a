// The answer to each case.
use crate::codings::{read_numbers, write_decoded, write_numbers, write_tokens};
use chosen::tongues::{Tongue, code_text, read_tongue};
use languages::language::Language;
use languages::walk::count_in;
use notation::{Unread, read_encoding, read_last_text, read_mark, read_name};
use routes::Routes;
use settings::Settings;
use std::alloc::{AllocError, Global};
use text::changes::Text;

fn tokens_in<L: Language>(heap: Global, language: &L, text: &[u8]) -> Result<String, AllocError> {
    match Text::new(text) {
        Ok(text) => {
            let count = count_in(language, text);
            let tokens = write_tokens(heap, language, text)?;
            format!(in heap; "{count}{tokens}")
        }
        Err(refusal) => format!(in heap; "refused {}", refusal.number()),
    }
}

fn answer_tokens(heap: Global, fields: &[u8]) -> Result<String, Unread> {
    let tongue = read_tongue(fields).ok_or(Unread::IllFormed)?;
    let text = read_last_text(heap, tongue.rest)?.ok_or(Unread::IllFormed)?;
    let tokens = match tongue.value {
        Tongue::Routes => tokens_in(heap, &Routes, text.as_slice())?,
        Tongue::Settings => tokens_in(heap, &Settings, text.as_slice())?,
    };
    Ok(tokens)
}

// The coding at the front of the list.
fn coded(heap: Global, list: &[u32], size: usize) -> Result<String, AllocError> {
    let end = size.min(list.len());
    let numbers = write_numbers(heap, &list[..end])?;
    if numbers.is_empty() {
        String::from_str(heap, "0")
    } else {
        format!(in heap; "0 {numbers}")
    }
}

fn answer_code(heap: Global, fields: &[u8], list: &mut Vec<u32>) -> Result<String, Unread> {
    let tongue = read_tongue(fields).ok_or(Unread::IllFormed)?;
    let encoding = read_encoding(tongue.rest).ok_or(Unread::IllFormed)?;
    let rest = read_mark(encoding.rest, b' ').ok_or(Unread::IllFormed)?;
    let text = read_last_text(heap, rest)?.ok_or(Unread::IllFormed)?;
    let answer = match code_text(tongue.value, encoding.value, text.as_slice(), list) {
        Ok(size) => coded(heap, list, size)?,
        Err(refusal) => format!(in heap; "{}", refusal.number())?,
    };
    Ok(answer)
}

fn answer_decode(heap: Global, fields: &[u8]) -> Result<String, Unread> {
    let numbers = match fields {
        b"-" => Vec::new(heap),
        _ => read_numbers(heap, fields)?,
    };
    let decoded = write_decoded(heap, numbers.as_slice())?;
    if decoded.is_empty() {
        return Ok(String::from_str(heap, "none")?);
    }
    Ok(decoded)
}

// What a case asks.
#[derive(Clone, Copy)]
enum Case {
    Tokens,
    Code,
    Decode,
}

fn answer_case(heap: Global, line: &[u8], list: &mut Vec<u32>) -> Result<String, Unread> {
    let case = read_name(
        line,
        &[
            (b"tokens ", Case::Tokens),
            (b"code ", Case::Code),
            (b"decode ", Case::Decode),
        ],
    )
    .ok_or(Unread::IllFormed)?;
    match case.value {
        Case::Tokens => answer_tokens(heap, case.rest),
        Case::Code => answer_code(heap, case.rest, list),
        Case::Decode => answer_decode(heap, case.rest),
    }
}

pub(crate) fn answer(heap: Global, line: &[u8], list: &mut Vec<u32>) -> Result<String, AllocError> {
    match answer_case(heap, line, list) {
        Ok(answer) => Ok(answer),
        Err(Unread::IllFormed) => String::from_str(heap, "no case"),
        Err(Unread::NoMemory(error)) => Err(error),
    }
}
