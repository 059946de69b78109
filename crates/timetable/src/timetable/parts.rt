// The parts of a timetable.
ghost use Rattle.std.specs.Prelude.{◌≡◌, ◌≤◌};
ghost use Rattle.market.specs.Figures.{most_hours, most_parties};
ghost use Rattle.timetable.specs.View.{times};

use super::Timetable;
use calendar::{Date, Instant};

impl Timetable {
    pub fn date(&self) -> Date
        ensures { result ≡ (times self.now).opening.date }
    {
        self.date
    }

    // How many hours the day has.
    pub fn hours(&self) -> usize
        ensures value { result ≡ (times self.now).opening.hours }
        ensures most { result ≤ most_hours }
    {
        self.spot.len()
    }

    // When the day starts.
    pub fn start(&self) -> Instant
        ensures { result.0 ≡ (times self.now).opening.start }
    {
        self.start
    }

    pub fn clock(&self) -> Instant
        ensures { result.0 ≡ (times self.now).clock }
    {
        self.clock
    }

    // How many parties are entered.
    pub fn parties(&self) -> usize
        ensures value { result ≡ (times self.now).parties }
        ensures most { result ≤ most_parties }
    {
        self.parties
    }
}
