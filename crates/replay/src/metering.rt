// The calls of a metered day.
ghost use Rattle.day.specs.View.{metered};
ghost use Rattle.replay.specs.Calls.{metered_row, metered_entry};

use crate::calls::{Answer, MeteredCall};
use crate::making::Call;
use day::MeteredDay;
use pricing::Policy;
use refusal::Refusal;

impl<P: Policy> Call for MeteredCall<P> {
    type Day = MeteredDay;

    ghost shows = { metered };

    ghost refused = { metered_row };

    ghost entry = { metered_entry P.meaning };

    fn make(&self, day: &mut MeteredDay) -> Result<Answer, Refusal> {
        match self {
            MeteredCall::Read(hour, party, meter, energy) => {
                day.read(*hour, *party, *meter, *energy)
                    .map(|()| Answer::Done)
            }
            MeteredCall::Settle(hour, policy) => day.settle(*hour, policy).map(|()| Answer::Done),
        }
    }
}
