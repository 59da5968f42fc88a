// Why a call is refused, and the number that is sent back for it.
#![tactic(auto)]

ghost use Rattle.std.specs.Prelude.{◌≡◌, Some};
ghost use Rattle.refusals.specs.Numbers.{number_of};
ghost use Rattle.refusals.specs.Words.{said};

use std::error::Error;
use std::fmt;

// One case for each number, in their order: a call answers the first that fits.
#[derive(Clone, Copy, Debug, PartialEq, Eq)]
pub enum Refusal {
    // Memory is shorter than stated, a stored text is ill-formed, or a sent frame's heading passes its area.
    Memory = 1,
    // The list of sent frames that the call may add to has no place left.
    ListFull = 2,
    // The list has no frame of that number.
    NoFrame = 3,
    // The header is not as laid out.
    Header = 4,
    // The bytes after the header are not as many as it says.
    BodyLength = 5,
    // The body is no message for this end, or a value is out of its range.
    Body = 6,
    // A text is over 8,192 bytes.
    LongText = 7,
    // A text is ill-formed.
    IllFormed = 8,
    // The end's document is shut, or, where the laptop opens one, it is not.
    DocumentState = 9,
    // The opening is not this end's own, or, at the node's Open, not above it.
    Opening = 10,
    // The version does not fit the end's own.
    Version = 11,
    // A position's line is not there.
    NoLine = 12,
    // A position falls inside a character.
    InsideCharacter = 13,
    // The start of a change lies after its end.
    StartAfterEnd = 14,
    // The changed text would pass 8,192 bytes.
    ResultTooLong = 15,
    // A question waits, or none does, or another than the one that is answered.
    Waiting = 16,
    // A token list's length, base or splice does not fit.
    ListShape = 17,
    // The text has over 512 tokens.
    TooManyTokens = 18,
    // The next opening, version or request would pass its range.
    Exhausted = 19,
}

impl Refusal {
    pub fn number(self) -> u32
        ensures { result ≡ number_of self }
    {
        // the numbers stand at the cases
        self as u32
    }
}

// What a refusal says, in a few words.
impl fmt::Display for Refusal {
    ghost output = { λ r. Some (said r) };

    fn fmt<W: fmt::Write>(&self, f: &mut fmt::Formatter<W>) -> fmt::Result {
        f.write_str(match self {
            Refusal::Memory => "memory is shorter than stated, or a stored text is ill-formed",
            Refusal::ListFull => "the list of sent frames is full",
            Refusal::NoFrame => "no frame of that number",
            Refusal::Header => "the header is not as laid out",
            Refusal::BodyLength => "the bytes after the header are not as many as it says",
            Refusal::Body => "the body is no message for this end",
            Refusal::LongText => "a text is over 8,192 bytes",
            Refusal::IllFormed => "a text is ill-formed",
            Refusal::DocumentState => "the document is shut, or open already",
            Refusal::Opening => "the opening is not this end's",
            Refusal::Version => "the version does not fit",
            Refusal::NoLine => "a position's line is not there",
            Refusal::InsideCharacter => "a position falls inside a character",
            Refusal::StartAfterEnd => "the start lies after the end",
            Refusal::ResultTooLong => "the new text would pass 8,192 bytes",
            Refusal::Waiting => "a question waits, or none does",
            Refusal::ListShape => "a token list does not fit",
            Refusal::TooManyTokens => "over 512 tokens",
            Refusal::Exhausted => "a number would pass its range",
        })
    }
}

impl Error for Refusal {}
