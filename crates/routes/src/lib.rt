// Routes: a language of routing rules. `;` opens a comment, words begin with a letter or `_`, `route`, `to` and `drop`
// are keywords, digits are a number, `+` and `#` are operators, and strings stand between quotes.
#![tactic(auto)]

ghost use Rattle.std.specs.Prelude.{◌≡◌, ◌≤◌, length};
ghost use Rattle.text.specs.Lines.{content};
ghost use Rattle.routes.specs.Reading.{opens, word_type, through, routes_reading, routes_next};
ghost use Rattle.routes.specs.Lawful.{routes_laws};

use languages::language::Language;
use languages::token::{Token, TokenType};
use scanner::piece::Piece;
use scanner::reader::Reader;
use scanner::runs::Run;
use scanner::scanning::scan;
use text::places::Place;

#[derive(Clone, Copy)]
pub struct Routes;

// What a byte opens: the classes of this language, each read in a way of its own.
#[derive(Clone, Copy)]
enum Opening {
    Comment,
    Word,
    Number,
    Operator,
    Quote,
}

fn opened_by(b: u8) -> Option<Opening>
    ensures { result ≡ opens b }
{
    match b as char {
        ';' => Some(Opening::Comment),
        'A'..='Z' | 'a'..='z' | '_' => Some(Opening::Word),
        '0'..='9' => Some(Opening::Number),
        '+' | '#' => Some(Opening::Operator),
        '"' => Some(Opening::Quote),
        _ => None,
    }
}

fn word_type(word: &[u8]) -> TokenType
    ensures { result ≡ word_type word.now }
{
    match word {
        b"route" | b"to" | b"drop" => TokenType::Keyword,
        _ => TokenType::Variable,
    }
}

// How many bytes a string has behind its first quote: through the next quote, else to the end of the line's content.
#[tactic(auto, using(crate::proofs::Strings::through_is))]
fn string_length(rest: &[u8]) -> usize
    ensures through { result ≡ through (content rest.now) }
    ensures within { result ≤ length rest.now }
{
    let length = Run::Unquoted.length_in(rest);
    match rest.get(length) {
        Some(b'"') => length + 1,
        _ => length,
    }
}

impl Reader for Routes {
    ghost reading = { λ _. routes_reading };

    #[tactic(auto, using(scanner::proofs::Classes::all_content, scanner::proofs::Classes::run_content, scanner::proofs::Classes::run_taken))]
    fn piece(&self, _clear: bool, rest: &[u8]) -> Option<Piece> {
        let (first, behind) = rest.split_first()?;
        // each class is read in a way of its own
        match opened_by(*first)? {
            Opening::Comment => Some(Piece::plain(
                Run::Content.length_in(rest),
                TokenType::Comment,
            )),
            Opening::Word => {
                let length = Run::Word.length_in(rest);
                Some(Piece::plain(length, word_type(&rest[..length])))
            }
            Opening::Number => Some(Piece::plain(Run::Digits.length_in(rest), TokenType::Number)),
            Opening::Operator => Some(Piece::plain(1, TokenType::Operator)),
            Opening::Quote => Some(Piece::plain(1 + string_length(behind), TokenType::String)),
        }
    }
}

impl Language for Routes {
    const TYPES: u32 = 6;

    ghost TYPES = { 6 };

    ghost next = { λ _. routes_next };

    ghost lawful = { λ s. routes_laws };

    // the same line in each language: only the crate of a trait may give it to all readers
    fn next_token(&self, text: &[u8], from: Place) -> Option<Token> {
        scan(self, text, from)
    }
}
