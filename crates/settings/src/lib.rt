// Settings: a language of named values. A word with only spaces and tabs before it in its line is a property; of the
// others `on` and `off` are keywords, the rest variables. Digits are a number, and `=` is an operator.
#![tactic(auto)]

ghost use Rattle.std.specs.Prelude.{◌≡◌};
ghost use Rattle.settings.specs.Reading.{opens, word_piece, settings_reading, settings_next};
ghost use Rattle.settings.specs.Lawful.{settings_laws};

use languages::language::Language;
use languages::token::{DECLARATION, READONLY, Token, TokenType};
use scanner::piece::Piece;
use scanner::reader::Reader;
use scanner::runs::Run;
use scanner::scanning::scan;
use text::places::Place;

#[derive(Clone, Copy)]
pub struct Settings;

// What a byte opens: the classes of this language, each read in a way of its own.
#[derive(Clone, Copy)]
enum Opening {
    Word,
    Number,
    Operator,
}

fn opened_by(b: u8) -> Option<Opening>
    ensures { result ≡ opens b }
{
    match b as char {
        'A'..='Z' | 'a'..='z' | '_' => Some(Opening::Word),
        '0'..='9' => Some(Opening::Number),
        '=' => Some(Opening::Operator),
        _ => None,
    }
}

// A word, told whether only spaces and tabs stand before it in its line.
fn word_piece(clear: bool, word: &[u8]) -> Piece
    ensures { result ≡ word_piece clear word.now }
{
    let length = word.len();
    if clear {
        return Piece {
            length,
            kind: TokenType::Property,
            modifiers: DECLARATION,
        };
    }
    match word {
        b"on" | b"off" => Piece {
            length,
            kind: TokenType::Keyword,
            modifiers: READONLY,
        },
        _ => Piece::plain(length, TokenType::Variable),
    }
}

impl Reader for Settings {
    ghost reading = { λ _. settings_reading };

    #[tactic(auto, using(scanner::proofs::Classes::run_content))]
    fn piece(&self, clear: bool, rest: &[u8]) -> Option<Piece> {
        let (first, _) = rest.split_first()?;
        // each class is read in a way of its own
        match opened_by(*first)? {
            Opening::Word => {
                let length = Run::Word.length_in(rest);
                Some(word_piece(clear, &rest[..length]))
            }
            Opening::Number => Some(Piece::plain(Run::Digits.length_in(rest), TokenType::Number)),
            Opening::Operator => Some(Piece::plain(1, TokenType::Operator)),
        }
    }
}

impl Language for Settings {
    const TYPES: u32 = 7;

    ghost TYPES = { 7 };

    ghost next = { λ _. settings_next };

    ghost lawful = { λ s. settings_laws };

    // the same line in each language: only the crate of a trait may give it to all readers
    fn next_token(&self, text: &[u8], from: Place) -> Option<Token> {
        scan(self, text, from)
    }
}
