// Messages that go up, from the laptop to the node: reading and writing their frames.
#![tactic(auto)]

pub mod message;
pub mod reading;
pub mod writing;
