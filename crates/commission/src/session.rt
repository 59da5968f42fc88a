// What a script works on.
ghost use Rattle.std.specs.Prelude.{◌≤◌, vec_len};
ghost use Rattle.std.specs.Option.{unwrap_or};

use chosen::tongues::Tongue;
use notation::Encoding;

#[derive(Drop)]
pub struct Session {
    pub encoding: Encoding,
    pub tongue: Tongue,
    // A call was made, so the encoding and the language stay. A flag alone: no value stands beside it.
    pub called: bool,
    // The first bytes hold the text, where there is one: the library changes a text in memory that it is lent, with the
    // length beside.
    pub memory: Vec<u8>,
    // How many bytes the text has.
    pub size: Option<usize>,
    // The library is lent the first `lent` bytes.
    pub lent: usize,
    ghost room: { 8192 ≤ vec_len memory },
    ghost short: { unwrap_or size 0 ≤ 8192 },
    ghost within: { lent ≤ vec_len memory },
}
