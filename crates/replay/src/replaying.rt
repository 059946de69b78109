// A day replayed from first call to last.
ghost use Rattle.std.specs.Prelude.{IfOk};
ghost use Rattle.replay.specs.Law.{Law};

use crate::calls::{MeteredCall, PlannedCall, RunningCall};
use crate::making::make_all;
use crate::run::Replay;
use calendar::Date;
use day::PlannedDay;
use pricing::Policy;
use std::alloc::{AllocError, Global};

// Opens the day of that date with these spot prices, makes every call of the script in turn, and answers the day and
// what each call came to. The law of the three sums holds of every such run.
pub fn replay<P: Policy>(
    heap: Global,
    date: Date,
    prices: &[i32],
    planned: &[PlannedCall],
    running: &[RunningCall],
    metered: &[MeteredCall<P>],
) -> Result<Replay, AllocError>
    ensures { IfOk result (Law P.meaning date prices.now planned.now running.now metered.now) }
{
    let mut day = PlannedDay::open(heap, date, prices)?;
    let planned_answers = make_all(heap, &mut day, planned)?;
    let mut day = day.start();
    let running_answers = make_all(heap, &mut day, running)?;
    let mut day = day.finish();
    let metered_answers = make_all(heap, &mut day, metered)?;
    Ok(Replay {
        day,
        planned: planned_answers,
        running: running_answers,
        metered: metered_answers,
    })
}
