// The calls of a running day.
ghost use Rattle.day.specs.View.{running};
ghost use Rattle.replay.specs.Calls.{running_row, running_entry};

use crate::calls::{Answer, RunningCall};
use crate::making::Call;
use day::RunningDay;
use refusal::Refusal;

impl Call for RunningCall {
    type Day = RunningDay;

    ghost shows = { running };

    ghost refused = { running_row };

    ghost entry = { running_entry };

    fn make(&self, day: &mut RunningDay) -> Result<Answer, Refusal> {
        match *self {
            RunningCall::Plan(hour, party, energy) => {
                day.plan(hour, party, energy).map(|()| Answer::Done)
            }
            RunningCall::Notice(notice) => day.notice(notice).map(|()| Answer::Done),
            RunningCall::Clock(instant) => day.set_clock(instant).map(|()| Answer::Done),
            RunningCall::Bid(offer) => day.bid(offer).map(Answer::Accepted),
            RunningCall::Withdraw(receipt) => day.withdraw(receipt).map(|()| Answer::Done),
            RunningCall::Hold(receipt, held) => day.hold(receipt, held).map(|()| Answer::Done),
            RunningCall::Activate(hour, direction, minutes) => day
                .activate(hour, direction, minutes)
                .map(|(receipt, energy)| Answer::Activated(receipt, energy)),
            RunningCall::Special(offer, minutes) => {
                day.special(offer, minutes).map(Answer::Energy)
            }
        }
    }
}
