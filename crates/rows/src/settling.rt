// The settlement of an hour.
ghost use Rattle.std.specs.Prelude.{◌≡◌};
ghost use Rattle.timetable.specs.View.{times};
ghost use Rattle.rows.specs.Rows.{checked, settle_row};

use crate::asking::check_hour;
use refusal::Refusal;
use timetable::Timetable;
use units::Position;

// `complete`: every reading of the hour is there.
pub fn check_settle(
    timetable: &Timetable,
    hour: Position,
    settled: bool,
    complete: bool,
) -> Result<(), Refusal>
    ensures { result ≡ checked (settle_row (times timetable.now) hour.0 settled complete) }
{
    check_hour(timetable, hour)?;
    if settled {
        return Err(Refusal::AlreadySettled);
    }
    if !complete {
        return Err(Refusal::ReadingMissing);
    }
    Ok(())
}
