// Price ladders: what a month's kWh cost when the price changes from block to block.
#![tactic(auto)]

mod charge;
pub mod ladder;
mod make;
pub mod step;
