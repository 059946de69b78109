// What the books of an hour come to: a party's trade, its imbalances, and what is due to it.
#![tactic(auto)]

mod book;
mod due;
mod narrow;
pub mod payments;
mod trade;

pub use book::{HourBook, Metered};
pub use payments::Terms;
