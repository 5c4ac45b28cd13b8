// Call lines: what a terminal is asked to do, read from a line of bytes and written as one.
#![tactic(auto)]

pub mod call;
mod letter;
mod read;
mod reader;
mod write;
