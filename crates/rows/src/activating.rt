// Activations: of the first free bid, and special ones.
ghost use Rattle.std.specs.Prelude.{◌≡◌};
ghost use Rattle.timetable.specs.View.{times};
ghost use Rattle.rows.specs.Rows.{checked, activate_row, special_row};

use crate::asking::{check_hour, check_party};
use crate::fits::{minutes_fit, special_fits};
use market::{Activation, Minutes};
use refusal::Refusal;
use timetable::Timetable;
use units::Position;

// `room`: there is room for one more activation; `found`: there is a bid to activate.
pub fn check_activate(
    timetable: &Timetable,
    hour: Position,
    minutes: Minutes,
    room: bool,
    found: bool,
) -> Result<(), Refusal>
    ensures { result ≡ checked (activate_row (times timetable.now) hour.0 minutes.first minutes.last room found) }
{
    check_hour(timetable, hour)?;
    if !minutes_fit(minutes) {
        return Err(Refusal::OutOfRange);
    }
    if timetable.is_past(hour, minutes.first) {
        return Err(Refusal::TooLate);
    }
    // Room counts only for a bid that is found.
    if !found {
        return Err(Refusal::NoSuchBid);
    }
    if !room {
        return Err(Refusal::NoRoom);
    }
    Ok(())
}

pub fn check_special(
    timetable: &Timetable,
    activation: &Activation,
    room: bool,
) -> Result<(), Refusal>
    ensures { result ≡ checked (special_row (times timetable.now) activation.now room) }
{
    check_hour(timetable, activation.hour)?;
    check_party(timetable, activation.party)?;
    if !special_fits(activation) {
        return Err(Refusal::OutOfRange);
    }
    if timetable.is_past(activation.hour, activation.minutes.first) {
        return Err(Refusal::TooLate);
    }
    if !room {
        return Err(Refusal::NoRoom);
    }
    Ok(())
}
