// What the fields of call lines and answer lines hold: accounts, numbers and codes, as bytes spell them, and the buffer that a
// line is put together in.
#![tactic(auto)]

pub mod account;
pub mod buffer;
pub mod code;
pub mod fault;
pub mod line;
pub mod number;
pub mod rider;
pub mod value;
mod writing;
