// One ordered list for every record that brings a total order.
#![tactic(auto)]

mod list;
mod rank;

pub use list::{Full, OrderedList};
pub use rank::Ranked;
