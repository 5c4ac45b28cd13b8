// What a rated reading comes to, as a person reads it.
#![tactic(auto)]

mod amount;
mod block;
mod label;
pub mod statement;
mod text;
