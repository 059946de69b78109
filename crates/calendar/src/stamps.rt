// The stamps of a day's positions: hour number and mark together.
ghost use Rattle.std.specs.Prelude.{◌≡◌, ◌<◌, if◌then◌else◌, Ok, Err, nat_lt};
ghost use Rattle.calendar.specs.Clock.{hours_of};
ghost use Rattle.calendar.specs.Stamps.{stamp_of, position_of, in_day, ThereAndBack, ClockShows, Marked};

use crate::{Date, Mark};
use refusal::Refusal;
use units::Position;

impl Date {
    // A position's stamp: the hour number that the local clock shows, and a mark where it shows that number twice.
    pub fn stamp(self, position: Position) -> Result<(u8, Mark), Refusal>
        ensures value { result ≡ (if nat_lt position.0 (hours_of self) then Ok (stamp_of (hours_of self) position.0) else Err Refusal.NotInDay) }
        ensures clock { position.0 < hours_of self → ClockShows self position.0 (stamp_of (hours_of self) position.0).0 }
        ensures marks { position.0 < hours_of self → Marked (hours_of self) position.0 (stamp_of (hours_of self) position.0).1 }
    {
        let (_, kind) = self.with_position(position)?;
        Ok(kind.stamp(position.0 as u8))
    }

    // The position of a stamp.
    pub fn position(self, hour: u8, mark: Mark) -> Result<Position, Refusal>
        ensures value { result ≡ in_day (position_of (hours_of self) hour mark) }
        ensures turns { ThereAndBack (hours_of self) }
    {
        self.covered()
            .and_then(|day| day.kind().position(usize::from(hour), mark))
            .map(Position)
            .ok_or(Refusal::NotInDay)
    }
}
