// The names of the position encodings.
ghost use Rattle.std.specs.Prelude.{◌≡◌};
ghost use Rattle.notation.specs.Encodings.{Names};

use crate::name::read_name;
use crate::parsed::Parsed;

#[derive(Clone, Copy)]
pub enum Encoding {
    Utf8,
    Utf16,
    Utf32,
}

// The encoding whose name stands at the front of `from`.
pub fn read_encoding(from: &[u8]) -> Option<Parsed<'_, Encoding>>
    ensures { Names from.now result }
{
    read_name(
        from,
        &[
            (b"utf-8", Encoding::Utf8),
            (b"utf-16", Encoding::Utf16),
            (b"utf-32", Encoding::Utf32),
        ],
    )
}
