// Runs of bytes of one class, and words.
ghost use Rattle.std.specs.Prelude.{◌≡◌, ◌≤◌, length};
ghost use Rattle.std.specs.List.{prefix_len};
ghost use Rattle.std.specs.Str.{bytes_eq};
ghost use Rattle.scanner.specs.Runs.{belongs};

// The classes of bytes that a token runs through. None has a byte that ends a line.
#[derive(Clone, Copy)]
pub enum Run {
    // Letters, `_` and digits.
    Word,
    Digits,
    // All up to the end of the line's content.
    Content,
    // All but a quote, up to the end of the line's content.
    Unquoted,
}

impl Run {
    // The match is the table of the classes.
    fn has(self, b: u8) -> bool
        ensures { result ≡ belongs self b }
    {
        match self {
            Run::Word => matches!(b as char, 'A'..='Z' | 'a'..='z' | '_' | '0'..='9'),
            Run::Digits => matches!(b as char, '0'..='9'),
            Run::Content => !matches!(b as char, '\n' | '\r'),
            Run::Unquoted => !matches!(b as char, '\n' | '\r' | '"'),
        }
    }

    // How many bytes of the class the rest of a text begins with.
    pub fn length_in(self, rest: &[u8]) -> usize
        ensures run { result ≡ prefix_len (belongs self) rest.now }
        ensures within { result ≤ length rest.now }
    {
        rest.iter().take_while(|b| self.has(**b)).count()
    }
}

// Whether the two are the same bytes: for readers whose words are no constants.
pub fn same_bytes(a: &[u8], b: &[u8]) -> bool
    ensures { result ≡ bytes_eq a.now b.now }
{
    a == b
}
