// Tokens by line and column.

// A token by its line and column, both from 0, and its length in units of the position encoding. A decoded list adds
// up to 512 numbers of 32 bits, so lines and columns have 64; its type is whatever number stands there.
#[derive(Clone, Copy)]
pub struct PlacedToken {
    pub line: u64,
    pub column: u64,
    pub units: u32,
    pub kind: u32,
    pub modifiers: u32,
}
