// The plans and the meter readings of a day: what each party planned in each hour, and what was read of it.
#![tactic(auto)]

mod record;
mod table;
mod table_calls;

pub use record::{Meter, PositionRecord};
pub use table::PositionTable;
