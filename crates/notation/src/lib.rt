// How numbers and bytes are written in the lines of a script. A reader takes what stands at the front, and hands
// back what follows it, so that another field can be read from there.
#![tactic(auto)]

mod encoding;
mod line;
mod name;
mod number;
mod parsed;
mod quoted;
mod unread;
mod writing;

pub use encoding::{Encoding, read_encoding};
pub use line::{ScriptLines, first_line, lines};
pub use name::read_name;
pub use number::{read_mark, read_number, read_pair};
pub use parsed::Parsed;
pub use quoted::{read_last_text, read_text};
pub use unread::Unread;
pub use writing::write_text;
