// The token list of a text, in any language.
ghost use Rattle.std.specs.Prelude.{◌≡◌, List, [], length, MatchOption};
ghost use Rattle.std.specs.Iterator.{YieldsFirst, item_count};
ghost use Rattle.refusals.specs.Outcomes.{outcome};
ghost use Rattle.text.specs.Positions.{IsText};
ghost use Rattle.languages.specs.declared.token.Token.{Token};
ghost use Rattle.languages.specs.Tokens.{tokens, rest, Step, count_rule};

use crate::language::Language;
use crate::token::Token;
use refusals::Refusal;
use std::marker::Model;
use text::changes::Text;
use text::places::Place;

// The next token from a place on, with what the laws say of a text's: it fits, and it is the first of those that are left.
pub fn ask<L: Language>(language: &L, text: &[u8], from: Place) -> Option<Token>
    ensures answer { result ≡ L.next language.now text.now from.0 }
    ensures step { IsText text.now → MatchOption result (rest (L.next language.now) text.now from.0 ≡ []) (λ t. Step (L.next language.now) L.TYPES text.now from.0 t) }
{
    language.next_token(text, from)
}

// The tokens of a text, one after another; seen as the list of those that are left. Only of a text do the laws say that
// they come to an end.
#[derive(Drop)]
pub struct Tokens<'a, L: Language> {
    language: &'a L,
    text: Text<'a>,
    from: Place,
}

impl<'a, L: Language> Model for Tokens<'a, L> {
    ghost Value = { List Token };

    ghost view = { λ s. rest (L.next s.language.now) s.text.bytes.now s.from.0 };

    ghost invariant = { λ s. IsText s.text.bytes.now };
}

impl<'a, L: Language> Tokens<'a, L> {
    pub fn new(language: &'a L, text: Text<'a>) -> Tokens<'a, L>
        ensures { result ≡ tokens (L.next language.now) text.entry.bytes.now }
    {
        Tokens {
            language,
            text,
            from: Place(0),
        }
    }
}

impl<'a, L: Language> Iterator for Tokens<'a, L> {
    type Item = Token;

    ghost next_gives = { YieldsFirst (λ s. s) };

    ghost remaining = { item_count (λ s. s) };

    fn next(&mut self) -> Option<Token> {
        let token = ask(self.language, self.text.bytes, self.from)?;
        self.from = Place(token.place.0 + token.length);
        Some(token)
    }
}

// How many tokens a text has.
pub fn count_in<L: Language>(language: &L, text: Text<'_>) -> usize
    ensures { result ≡ length (tokens (L.next language.now) text.entry.bytes.now) }
{
    Tokens::new(language, text).count()
}

// How many tokens the text has: 7 where they are too many, 8 where they are ill-formed.
pub fn count_tokens<L: Language>(language: &L, text: &[u8]) -> Result<usize, Refusal>
    ensures { outcome (λ n. n) result tt ≡ count_rule (L.next language.now) text.now }
{
    let text = Text::new(text)?;
    Ok(count_in(language, text))
}
