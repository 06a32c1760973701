// What the program `cube` answers to what it reads.
#![tactic(auto)]

pub mod lines;
pub mod response;
pub mod text;
