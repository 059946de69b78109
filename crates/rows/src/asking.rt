// Questions about an hour or a party, with which most other calls begin.
ghost use Rattle.std.specs.Prelude.{◌≡◌};
ghost use Rattle.timetable.specs.View.{times};
ghost use Rattle.rows.specs.Rows.{account_row, checked, facts_row};

use refusal::Refusal;
use timetable::Timetable;
use units::{Party, Position};

pub fn check_hour(timetable: &Timetable, hour: Position) -> Result<(), Refusal>
    ensures { result ≡ checked (facts_row (times timetable.now) hour.0) }
{
    if !timetable.has_hour(hour) {
        return Err(Refusal::NotInDay);
    }
    Ok(())
}

pub fn check_party(timetable: &Timetable, party: Party) -> Result<(), Refusal>
    ensures { result ≡ checked (account_row (times timetable.now) party.0) }
{
    if !timetable.has_party(party) {
        return Err(Refusal::UnknownParty);
    }
    Ok(())
}
