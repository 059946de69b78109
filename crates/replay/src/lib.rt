// A day replayed from its script: every call made on the real day, and every answer kept.
#![tactic(auto)]

mod calls;
mod making;
mod metering;
mod planning;
mod replaying;
mod run;
mod running;

pub use calls::{Answer, MeteredCall, PlannedCall, RunningCall};
pub use replaying::replay;
pub use run::Replay;
