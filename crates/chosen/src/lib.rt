// The library's calls in the language and encoding that a program's input names.
#![tactic(auto)]

pub mod fields;
pub mod texts;
pub mod tongues;
