// Plans and notices.
ghost use Rattle.std.specs.Prelude.{◌≡◌};
ghost use Rattle.timetable.specs.View.{times};
ghost use Rattle.rows.specs.Rows.{checked, notice_row, plan_row};

use crate::asking::{check_hour, check_party};
use crate::fits::{is_known, is_outside};
use market::figures::{NOTICE_LIMIT, PLAN_LIMIT};
use notices::Notice;
use refusal::Refusal;
use timetable::Timetable;
use units::{KilowattHours, Party, Position};

pub fn check_plan(
    timetable: &Timetable,
    hour: Position,
    party: Party,
    energy: KilowattHours,
) -> Result<(), Refusal>
    ensures { result ≡ checked (plan_row (times timetable.now) hour.0 party.0 energy.0) }
{
    check_hour(timetable, hour)?;
    check_party(timetable, party)?;
    if !(0..=PLAN_LIMIT).contains(&energy.0) {
        return Err(Refusal::OutOfRange);
    }
    if timetable.gate_closed(hour) {
        return Err(Refusal::TooLate);
    }
    Ok(())
}

// `room`: the table of notices takes this one.
pub fn check_notice(timetable: &Timetable, notice: &Notice, room: bool) -> Result<(), Refusal>
    ensures { result ≡ checked (notice_row (times timetable.now) notice.now room) }
{
    check_hour(timetable, notice.hour)?;
    if !is_known(timetable, notice.sender) || !is_known(timetable, notice.counterparty) {
        return Err(Refusal::UnknownParty);
    }
    if is_outside(notice.counterparty) || notice.sender == notice.counterparty {
        return Err(Refusal::WrongPair);
    }
    if !(-NOTICE_LIMIT..=NOTICE_LIMIT).contains(&notice.energy.0) {
        return Err(Refusal::OutOfRange);
    }
    if timetable.gate_closed(notice.hour) {
        return Err(Refusal::TooLate);
    }
    if !room {
        return Err(Refusal::NoRoom);
    }
    Ok(())
}
