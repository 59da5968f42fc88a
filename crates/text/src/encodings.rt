// Position encodings: the units that columns count.
ghost use Rattle.std.specs.Prelude.{◌≡◌, ℕ};
ghost use Rattle.text.specs.Units.{Counts, utf8_units, utf16_units, utf32_units, utf8_counts, utf16_counts, utf32_counts};

// An encoding is a value that is asked for the units of a character; asking has no effect. Its meaning is `units`.
// Each constant has a ghost member of its name, for clauses; the two are proved equal in each encoding.
pub trait PositionEncoding {
    ghost NAME: { ℕ };

    ghost LARGEST: { ℕ };

    // The number that names the encoding.
    const NAME: u32;

    // The most units that one character counts.
    const LARGEST: u32;

    ghost units: { Self → ℕ → ℕ };

    fn units_of(&self, c: char) -> u32
        ensures { result ≡ units self.now c };

    ghost counts: { (e : Self) → Counts (units e) LARGEST };

    // One line each, here and below: what differs is the constant.
    final fn stated_name(&self) -> u32
        ensures { result ≡ NAME }
    {
        Self::NAME
    }

    final fn stated_largest(&self) -> u32
        ensures { result ≡ LARGEST }
    {
        Self::LARGEST
    }
}

// Each encoding is a type with its numbers and one line of its own: the impls are alike in shape, not in what they say.
#[derive(Clone, Copy)]
pub struct Utf8Units;

impl PositionEncoding for Utf8Units {
    const NAME: u32 = 8;

    const LARGEST: u32 = 4;

    ghost NAME = { 8 };

    ghost LARGEST = { 4 };

    ghost units = { λ _. utf8_units };

    ghost counts = { λ _. utf8_counts };

    fn units_of(&self, c: char) -> u32 {
        c.len_utf8() as u32
    }
}

#[derive(Clone, Copy)]
pub struct Utf16Units;

impl PositionEncoding for Utf16Units {
    const NAME: u32 = 16;

    const LARGEST: u32 = 2;

    ghost NAME = { 16 };

    ghost LARGEST = { 2 };

    ghost units = { λ _. utf16_units };

    ghost counts = { λ _. utf16_counts };

    fn units_of(&self, c: char) -> u32 {
        c.len_utf16() as u32
    }
}

#[derive(Clone, Copy)]
pub struct Utf32Units;

impl PositionEncoding for Utf32Units {
    const NAME: u32 = 32;

    const LARGEST: u32 = 1;

    ghost NAME = { 32 };

    ghost LARGEST = { 1 };

    ghost units = { λ _. utf32_units };

    ghost counts = { λ _. utf32_counts };

    fn units_of(&self, _c: char) -> u32 {
        1
    }
}
