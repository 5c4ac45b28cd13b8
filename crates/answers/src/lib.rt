// Answer lines: what a terminal answers to a call, written as a line of bytes.
#![tactic(auto)]

pub mod answer;
mod write;
