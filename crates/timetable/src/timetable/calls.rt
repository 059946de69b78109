// What changes a timetable.
ghost use Rattle.std.specs.Prelude.{◌≡◌};
ghost use Rattle.refusal.specs.Outcome.{Outcome};
ghost use Rattle.timetable.specs.Opening.{clock_row, enter_row, with_clock, with_party};
ghost use Rattle.timetable.specs.View.{times};

use super::Timetable;
use calendar::Instant;
use market::figures::{LATEST_CLOCK, MOST_PARTIES};
use refusal::Refusal;
use units::Party;

impl Timetable {
    // Enters one more party, and answers its number.
    pub fn enter(&mut self) -> Result<Party, Refusal>
        ensures { Outcome (enter_row (times self.old)) result (times self.new ≡ times self.old) (λ party. (party.0 ≡ (times self.old).parties) × (times self.new ≡ with_party (times self.old))) }
    {
        let party = Party(self.parties);
        if self.parties >= MOST_PARTIES {
            return Err(Refusal::NoRoom);
        }
        self.parties += 1;
        Ok(party)
    }

    // Sets the clock; it never goes back.
    pub fn set_clock(&mut self, instant: Instant) -> Result<(), Refusal>
        ensures { Outcome (clock_row (times self.old) instant.0) result (times self.new ≡ times self.old) (λ _. times self.new ≡ with_clock instant.0 (times self.old)) }
    {
        if instant > Instant(i64::from(LATEST_CLOCK)) {
            return Err(Refusal::OutOfRange);
        }
        if instant < self.clock {
            return Err(Refusal::ClockBack);
        }
        self.clock = instant;
        Ok(())
    }
}
