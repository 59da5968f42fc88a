// What reads a single token.
ghost use Rattle.std.specs.Prelude.{◌≡◌, ℕ, Bool, List, Option};
ghost use Rattle.text.specs.Lines.{content};
ghost use Rattle.scanner.specs.declared.piece.Piece.{Piece};

use crate::piece::Piece;

// Reads the token that starts what is left of a text, if one starts there. The answer depends only on the rest of the
// line's content and on `clear`: whether only spaces and tabs stand before it in its line. Each reader that is a language
// says so by itself: `Language` is another crate's trait, so none may be given to all readers at once.
pub trait Reader {
    ghost reading: { Self → Bool → List ℕ → Option Piece };

    fn piece(&self, clear: bool, rest: &[u8]) -> Option<Piece>
        ensures { result ≡ reading self.now clear (content rest.now) };
}
