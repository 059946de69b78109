// The times of a day: its hours, when they start, their spot prices, the clock and how many parties are entered.
#![tactic(auto)]

mod opening;
mod timetable;

pub use opening::{opening_refusal, within_limit};
pub use timetable::Timetable;
