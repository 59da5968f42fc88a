// Token lists: tokens by line and column, and their relative coding.
#![tactic(auto)]

pub mod coder;
pub mod cursor;
pub mod decoder;
pub mod placed;
