// Texts: lines, positions in the units of an encoding, and changes.
#![tactic(auto)]

pub mod changes;
pub mod encodings;
pub mod lines;
pub mod places;
pub mod positions;
