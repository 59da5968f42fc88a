// What every reader of this crate answers.

// A value that was read at the front of bytes, and what follows it.
#[derive(Clone, Copy, Drop)]
pub struct Parsed<'a, T> {
    pub value: T,
    pub rest: &'a [u8],
}
