// What a language is.
ghost use Rattle.std.specs.Prelude.{◌≡◌, ℕ, List, Option};
ghost use Rattle.languages.specs.declared.token.Token.{Token};
ghost use Rattle.languages.specs.Tokens.{LanguageLaws};

use crate::token::Token;
use text::places::Place;

// A language is a value that is asked for the next token of a text from a place on; asking has no effect. Its
// meaning is `next`, the same answer for the same text and place, and `lawful` is what it has to show.
pub trait Language {
    // How many token types it has: each type's number is below.
    const TYPES: u32;

    ghost TYPES: { ℕ };

    ghost next: { Self → List ℕ → ℕ → Option Token };

    fn next_token(&self, text: &[u8], from: Place) -> Option<Token>
        ensures { result ≡ next self.now text.now from.0 };

    ghost lawful: { (s : Self) → LanguageLaws (next s) TYPES };

    // One line, as the accessors of encodings are: what differs is the constant.
    final fn stated_types(&self) -> u32
        ensures { result ≡ TYPES }
    {
        Self::TYPES
    }
}
