// Words of 32 bits, most significant byte first: 4 bits of kind and 28 of value.
ghost use Rattle.std.specs.Prelude.{◌≡◌, ◌+◌, ◌*◌, ◌^◌, ◌<◌, ◌≤◌, length, if◌then◌else◌, Some, None, nat_le};
ghost use Rattle.std.specs.List.{AllByRecursion};
ghost use Rattle.wire.specs.Words.{word_at, word_of, field_at, over, words, kind_number, worded, Fitting};

// What a word says, each kind by its number.
#[derive(Clone, Copy, Debug, PartialEq, Eq)]
pub enum Kind {
    Message = 1,
    Opening = 2,
    Version = 3,
    Line = 4,
    Character = 5,
    Request = 6,
    Result = 7,
    // The length of the text that ends the body.
    TextLength = 8,
}

impl Kind {
    pub fn number(self) -> u32
        ensures { result ≡ kind_number self }
    {
        // the numbers stand at the cases
        self as u32
    }

    // A word of this kind: made, not converted.
    pub fn word(self, value: u32) -> Word
        ensures { result ≡ worded self value }
    {
        Word(self.number(), value)
    }
}

// A word: its kind, and its value. Numbers, as `put` and `field` take them: a `Kind` would ask more of who calls.
#[derive(Clone, Copy)]
pub struct Word(pub u32, pub u32);

// The word at a place, if there is one.
fn word_at(body: &[u8], at: usize) -> Option<u32>
    ensures { result ≡ (if nat_le (at + 4) (length body.now) then Some (word_at body.now at) else None) }
{
    let bytes = body.get(at..)?.first_chunk::<4>()?;
    Some(u32::from_be_bytes(*bytes))
}

// The value of the word at a place, if there is one, it is of that kind, and it lies between `low` and `high`. The
// kind is a number: a `Kind` would ask more of who calls; so would a record of the five, and the place differs in
// every call.
pub fn field(body: &[u8], at: usize, kind: u32, low: u32, high: u32) -> Option<u32>
    ensures { result ≡ field_at body.now at kind low high }
{
    let word = word_at(body, at)?;
    let value = word % 0x1000_0000;
    let fits = word / 0x1000_0000 == kind && low <= value && value <= high;
    fits.then_some(value)
}

// Writes the bytes at a place, and answers the place behind them. What writes at a place says the place in its own
// measure (bytes, four for a word, four for each of the words), so the three facts stand at each: one record would say
// all by the length of the bytes, which is no plainer.
pub fn put_bytes(out: &mut [u8], at: usize, bytes: &[u8]) -> usize
    requires { at + length bytes.now ≤ length out.old }
    ensures next { result ≡ at + length bytes.now }
    ensures bytes { out.new ≡ over out.old at bytes.now }
{
    let end = at + bytes.len();
    out[at..end].copy_from_slice(bytes);
    end
}

// Writes a word at a place, and answers the place behind it.
pub fn put(out: &mut [u8], at: usize, kind: u32, value: u32) -> usize
    requires room { at + 4 ≤ length out.old }
    requires kind { kind < 16 }
    requires value { value < 2 ^ 28 }
    ensures next { result ≡ at + 4 }
    ensures bytes { out.new ≡ over out.old at (word_of kind value) }
{
    let bytes = (kind * 0x1000_0000 + value).to_be_bytes();
    put_bytes(out, at, &bytes)
}

// Writes words one behind another from a place on, and answers the place behind them.
pub fn put_words(out: &mut [u8], start: usize, given: &[Word]) -> usize
    requires room { start + 4 * length given.now ≤ length out.old }
    requires fit { AllByRecursion Fitting given.now }
    ensures next { result ≡ start + 4 * length given.now }
    ensures bytes { out.new ≡ over out.old start (words given.now) }
{
    let mut at = start;
    for word in given {
        at = put(out, at, word.0, word.1);
    }
    at
}
