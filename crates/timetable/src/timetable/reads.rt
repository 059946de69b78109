// What a timetable answers.
ghost use Rattle.std.specs.Prelude.{◌≡◌};
ghost use Rattle.calendar.specs.Stamps.{ThereAndBack};
ghost use Rattle.timetable.specs.Opening.{entered, gate_closed, hour_start, in_day, is_past, position_in, stamp_in};
ghost use Rattle.timetable.specs.Prices.{Within};
ghost use Rattle.timetable.specs.View.{times};

use super::Timetable;
use calendar::Mark;
use market::figures::{GATE_MINUTES, MINUTES_IN_HOUR};
use refusal::Refusal;
use units::{Party, Position, Price};

impl Timetable {
    // The spot price of an hour; 0 past the day's hours.
    pub fn spot(&self, position: Position) -> Price
        ensures value { result ≡ (times self.now).opening.spot position.0 }
        ensures within { Within result }
    {
        self.spot.get(position.0).copied().unwrap_or_default()
    }

    pub fn has_hour(&self, position: Position) -> bool
        ensures { result ≡ in_day (times self.now) position.0 }
    {
        position.0 < self.hours()
    }

    pub fn has_party(&self, party: Party) -> bool
        ensures { result ≡ entered (times self.now) party.0 }
    {
        party.0 < self.parties
    }

    // When the hour at a position starts, in minutes. Wide enough for any position, also past the day.
    fn hour_start(&self, position: Position) -> i128
        ensures { result ≡ hour_start (times self.now) position.0 }
    {
        i128::from(self.start.0) + i128::from(MINUTES_IN_HOUR) * position.0 as i128
    }

    // Whether the hour starts too soon to plan, notify, bid or withdraw for.
    pub fn gate_closed(&self, position: Position) -> bool
        ensures { result ≡ gate_closed (times self.now) position.0 }
    {
        self.hour_start(position) - i128::from(self.clock.0) < i128::from(GATE_MINUTES)
    }

    // Whether that minute of the hour is before the clock.
    pub fn is_past(&self, position: Position, minute: u8) -> bool
        ensures { result ≡ is_past (times self.now) position.0 minute }
    {
        self.hour_start(position) + i128::from(minute) < i128::from(self.clock.0)
    }

    // The stamp of a position: its hour number and mark together.
    pub fn stamp(&self, position: Position) -> Result<(u32, Mark), Refusal>
        ensures value { result ≡ stamp_in (times self.now) position.0 }
        ensures turns { ThereAndBack (times self.now).opening.hours }
    {
        if !self.has_hour(position) {
            return Err(Refusal::NotInDay);
        }
        let (hour, mark) = self.date.stamp(position)?;
        Ok((u32::from(hour), mark))
    }

    // The position of a stamp.
    pub fn position(&self, hour: u32, mark: Mark) -> Result<Position, Refusal>
        ensures value { result ≡ position_in (times self.now) hour mark }
        ensures turns { ThereAndBack (times self.now).opening.hours }
    {
        if self.hours() == 0 {
            return Err(Refusal::NotInDay);
        }
        let hour = u8::try_from(hour).map_err(|_| Refusal::NotInDay)?;
        self.date.position(hour, mark)
    }
}
