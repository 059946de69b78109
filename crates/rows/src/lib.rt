// Whether a row of its table refuses a call. Each check tries its rows from the top, and changes nothing. They are free
// functions, since the timetable that they ask is a type of another crate.
#![tactic(auto)]

mod activating;
mod asking;
mod bidding;
mod fits;
mod metering;
mod planning;
mod settling;

pub use activating::{check_activate, check_special};
pub use asking::{check_hour, check_party};
pub use bidding::{check_bid, check_withdraw};
pub use metering::{check_imbalance, check_reading};
pub use planning::{check_notice, check_plan};
pub use settling::check_settle;
