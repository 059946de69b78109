// A whole run.
use crate::calls::Answer;
use day::MeteredDay;
use refusal::Refusal;

// The day at its end, and the answer of every call, stage by stage.
#[derive(Drop)]
pub struct Replay {
    pub day: MeteredDay,
    pub planned: Vec<Result<Answer, Refusal>>,
    pub running: Vec<Result<Answer, Refusal>>,
    pub metered: Vec<Result<Answer, Refusal>>,
}
