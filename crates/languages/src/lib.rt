// Languages: what colours a text, as tokens.
#![tactic(auto)]

pub mod language;
pub mod token;
pub mod walk;
