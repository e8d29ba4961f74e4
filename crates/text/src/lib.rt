// What is printed, as bytes in a lent output (document 01, "Session file").
#![tactic(auto)]

pub mod digits;
pub mod lines;
mod output;
