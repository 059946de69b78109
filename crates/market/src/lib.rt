// The words of the trade in balancing power, with its figures and its one rounding.
#![tactic(auto)]

pub mod figures;
mod order;
pub mod rounding;
pub mod words;

pub use words::{Activation, Bid, Direction, Kind, Minutes, Portfolio};
