// A language by what starts the rest of a line: readers of single tokens, and the scan that makes a language of one.
#![tactic(auto)]

mod leads;
pub mod piece;
pub mod reader;
pub mod runs;
pub mod scanning;
