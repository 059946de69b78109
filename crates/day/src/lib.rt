// The day at its three stages. Each is a type of its own: a call that does not belong to a stage is not there to be made.
#![tactic(auto)]

mod metered;
mod metered_asks;
mod metered_calls;
mod open_day;
mod planned_calls;
mod running_calls;
mod stage;

pub use metered::MeteredDay;
pub use open_day::{PlannedDay, RunningDay};
pub use timetable::{Timetable, opening_refusal};
