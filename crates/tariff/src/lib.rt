// The rate book: eleven schedules, and what a month's reading comes to under each.
#![tactic(auto)]

pub mod bill;
mod book;
mod check;
pub mod fault;
mod lines;
mod priced;
mod rating;
pub mod reading;
pub mod refusal;
pub mod schedule;
pub mod sheet;
mod usage;
