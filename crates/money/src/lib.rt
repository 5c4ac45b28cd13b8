// Money: micro-dollars and cents as types of their own, and the one way to round between them.
#![tactic(auto)]

pub mod amount;
pub mod division;
pub mod divisor;
