// Where something stands in a text.

// A place in a text: it counts bytes.
#[derive(Clone, Copy, Debug, PartialEq, Eq)]
pub struct Place(pub usize);

// A column of a line: it counts units of the position encoding.
#[derive(Clone, Copy, Debug, PartialEq, Eq)]
pub struct Column(pub u32);

// A position as an editor gives it: a line and a column of it, both from 0. A character past the line's content
// means the content's end.
#[derive(Clone, Copy)]
pub struct Position {
    pub line: u32,
    pub character: Column,
}

// From a start up to an end.
#[derive(Clone, Copy)]
pub struct Between<T> {
    pub start: T,
    pub end: T,
}

// What a change replaces: from the start position up to the end position.
pub type Range = Between<Position>;

// The same in places.
pub type Span = Between<Place>;
