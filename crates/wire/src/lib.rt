// What a frame is made of: a header line, and words of 32 bits.
#![tactic(auto)]

pub mod frames;
pub mod header;
pub mod words;
