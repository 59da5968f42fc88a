// Tokens of a text, and the types and modifiers that the languages here share.
ghost use Rattle.std.specs.Prelude.{◌≡◌};
ghost use Rattle.languages.specs.Types.{type_number};

use text::places::Place;

// A part of a text with a type and a sum of modifiers. The length counts bytes: no buffer stands beside it. The type
// is a number below the language's `TYPES` and no `TokenType`, since a language may have types of its own.
#[derive(Clone, Copy)]
pub struct Token {
    pub place: Place,
    pub length: usize,
    pub kind: u32,
    pub modifiers: u32,
}

// The token types, by the names that an editor knows.
#[derive(Clone, Copy)]
pub enum TokenType {
    Comment = 0,
    Keyword = 1,
    Variable = 2,
    Number = 3,
    Operator = 4,
    String = 5,
    Property = 6,
}

impl TokenType {
    pub fn number(self) -> u32
        ensures { result ≡ type_number self }
    {
        // the numbers stand at the cases
        self as u32
    }
}

// Modifiers: a token has the sum of those that apply.
pub const READONLY: u32 = 1;

pub const DECLARATION: u32 = 2;
