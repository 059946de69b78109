// Meter readings, and the imbalances that they show.
ghost use Rattle.std.specs.Prelude.{◌≡◌};
ghost use Rattle.timetable.specs.View.{times};
ghost use Rattle.rows.specs.Rows.{checked, imbalance_row, reading_row};

use crate::asking::{check_hour, check_party};
use market::figures::READING_LIMIT;
use refusal::Refusal;
use timetable::Timetable;
use units::{KilowattHours, Party, Position};

pub fn check_reading(
    timetable: &Timetable,
    hour: Position,
    party: Party,
    energy: KilowattHours,
    settled: bool,
) -> Result<(), Refusal>
    ensures { result ≡ checked (reading_row (times timetable.now) hour.0 party.0 energy.0 settled) }
{
    check_hour(timetable, hour)?;
    check_party(timetable, party)?;
    if !(0..=READING_LIMIT).contains(&energy.0) {
        return Err(Refusal::OutOfRange);
    }
    if settled {
        return Err(Refusal::AlreadySettled);
    }
    Ok(())
}

// `complete`: the party's readings of the hour are there.
pub fn check_imbalance(
    timetable: &Timetable,
    hour: Position,
    party: Party,
    complete: bool,
) -> Result<(), Refusal>
    ensures { result ≡ checked (imbalance_row (times timetable.now) hour.0 party.0 complete) }
{
    check_hour(timetable, hour)?;
    check_party(timetable, party)?;
    if !complete {
        return Err(Refusal::ReadingMissing);
    }
    Ok(())
}
