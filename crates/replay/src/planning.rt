// The calls of a planned day.
ghost use Rattle.day.specs.View.{planned};
ghost use Rattle.replay.specs.Calls.{planned_row, planned_entry};

use crate::calls::{Answer, PlannedCall};
use crate::making::Call;
use day::PlannedDay;
use refusal::Refusal;

impl Call for PlannedCall {
    type Day = PlannedDay;

    ghost shows = { planned };

    ghost refused = { planned_row };

    ghost entry = { planned_entry };

    fn make(&self, day: &mut PlannedDay) -> Result<Answer, Refusal> {
        match *self {
            PlannedCall::Enter => day.enter().map(Answer::Entered),
            PlannedCall::Plan(hour, party, energy) => {
                day.plan(hour, party, energy).map(|()| Answer::Done)
            }
            PlannedCall::Notice(notice) => day.notice(notice).map(|()| Answer::Done),
            PlannedCall::Clock(instant) => day.set_clock(instant).map(|()| Answer::Done),
        }
    }
}
