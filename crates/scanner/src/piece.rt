// A token without its place.
ghost use Rattle.std.specs.Prelude.{◌≡◌};
ghost use Rattle.scanner.specs.Pieces.{plain};

use languages::token::TokenType;

// What a token is, wherever it stands. The length counts bytes: no buffer stands beside it.
#[derive(Clone, Copy)]
pub struct Piece {
    pub length: usize,
    pub kind: TokenType,
    pub modifiers: u32,
}

impl Piece {
    // A piece without modifiers.
    pub fn plain(length: usize, kind: TokenType) -> Piece
        ensures { result ≡ plain length kind }
    {
        Piece {
            length,
            kind,
            modifiers: 0,
        }
    }
}
