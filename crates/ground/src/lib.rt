// What every crate above stands on: choices, lists given place by place, refusals, and the loops that copy a slice.
#![tactic(auto)]

pub mod bytes;
pub mod codes;
pub mod refusals;
