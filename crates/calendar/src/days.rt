// The hours of the local day, and the instants at which it and they start.
ghost use Rattle.std.specs.Prelude.{◌≡◌, ℕ, ◌<◌, ◌≤◌, ltb, pos, negsuc, ◌≤ℤ◌, ◌<ℤ◌, if◌then◌else◌, Ok, Err, MatchOption, MatchResult, ◌==◌};
ghost use Rattle.refusal.specs.declared.Refusal.TheVariants.{NotInDay};
ghost use Rattle.calendar.specs.Dates.{day_of};
ghost use Rattle.calendar.specs.Clock.{covered, last_sunday, hours_of, DayHours, starts_in_summer, start_ahead, ahead_at, start_of, start_at, StartsInTurn, Ahead};
ghost use Rattle.calendar.specs.Kinds.{kind_hours};

use crate::counting::{Month, days_in_month};
use crate::kinds::DayKind;
use crate::{
    DAY_MINUTES, Date, FIRST_YEAR, HOUR_MINUTES, Instant, LAST_YEAR, MARCH, OCTOBER, SUMMER_TIME,
    WINTER_TIME,
};
use refusal::Refusal;
use units::Position;

// A date that the calendar has, in the years that are covered.
#[derive(Clone, Copy)]
pub(crate) struct CoveredDate {
    date: Date,
    ghost has_hours: { 0 < hours_of date },
}

impl Date {
    // Whether the calendar has this date, in the years that are covered.
    fn is_covered(self) -> bool
        ensures { result ≡ covered self }
    {
        (FIRST_YEAR..=LAST_YEAR).contains(&self.year)
            && (1..=days_in_month(self.year, self.month)).contains(&self.day)
    }

    #[tactic(auto, using(crate::proofs::DayTests::none, crate::proofs::DayTests::some_hours))]
    pub(crate) fn covered(self) -> Option<CoveredDate>
        ensures { MatchOption result (hours_of self ≡ 0) (λ day. day.date ≡ self) }
    {
        // An `if` and no `then`, whose closure could not see the test.
        if !self.is_covered() {
            return None;
        }
        Some(CoveredDate { date: self })
    }

    // This date and the kind of its day, where the day has that position.
    pub(crate) fn with_position(self, position: Position) -> Result<(CoveredDate, DayKind), Refusal>
        ensures { MatchResult result (λ found. (found.0.date ≡ self) × (kind_hours found.1 ≡ hours_of self) × (position.0 < hours_of self)) (λ refusal. (hours_of self ≤ position.0) × (refusal ≡ NotInDay)) }
    {
        self.covered()
            .map(|day| (day, day.kind()))
            .filter(|(_, kind)| position.0 < kind.hours())
            .ok_or(Refusal::NotInDay)
    }

    // The hours of the local day; 0 for a date that is not covered.
    pub fn hours(self) -> usize
        ensures value { result ≡ hours_of self }
        ensures rule { DayHours self result }
    {
        self.covered().map_or(0, |day| day.kind().hours())
    }

    // The instant at which the day starts.
    pub fn start(self) -> Result<Instant, Refusal>
        ensures value { result ≡ (if ltb 0 (hours_of self) then Ok (record { 0 = start_of self }) else Err Refusal.OutOfRange) }
        ensures turns { StartsInTurn self }
    {
        let day = self.covered().ok_or(Refusal::OutOfRange)?;
        Ok(Instant(day.midnight()))
    }

    // The instant at which the hour at a position starts.
    #[tactic(auto, using(crate::proofs::DayTests::hours_most))]
    pub fn start_of(self, position: Position) -> Result<Instant, Refusal>
        ensures value { result ≡ (if ltb position.0 (hours_of self) then Ok (record { 0 = start_at self position.0 }) else Err Refusal.NotInDay) }
        ensures rises { (p q : ℕ) → p < q → start_at self p <ℤ start_at self q }
    {
        let (day, _) = self.with_position(position)?;
        Ok(Instant(day.midnight() + HOUR_MINUTES * position.0 as i64))
    }

    // How many minutes the local clock is ahead of UTC when the hour at a position starts.
    pub fn minutes_ahead(self, position: Position) -> Result<u32, Refusal>
        ensures value { result ≡ (if ltb position.0 (hours_of self) then Ok (ahead_at self position.0) else Err Refusal.NotInDay) }
        ensures rule { position.0 < hours_of self → Ahead (start_at self position.0) (ahead_at self position.0) }
    {
        let (day, kind) = self.with_position(position)?;
        Ok(kind.ahead_in(day.start_ahead(), position.0))
    }
}

impl CoveredDate {
    #[tactic(auto, using(crate::proofs::DayTests::bounds))]
    fn month(self) -> Month
        ensures { (result.year ≡ self.date.year) × (result.number ≡ self.date.month) }
    {
        Month {
            year: self.date.year,
            number: self.date.month,
        }
    }

    // The days from 2000-01-01 to this date.
    #[tactic(auto, using(crate::proofs::DayTests::bounds))]
    fn count(self) -> u32
        ensures value { result ≡ day_of self.date }
        ensures bound { result ≤ 40000 }
    {
        self.month().day_number(self.date.day)
    }

    fn is_last_sunday(self) -> bool
        ensures { result ≡ (self.date.day == last_sunday self.date.year self.date.month) }
    {
        self.date.day == self.month().last_sunday()
    }

    #[tactic(auto, using(crate::proofs::DayTests::hours_by_kind))]
    pub(crate) fn kind(self) -> DayKind
        ensures { kind_hours result ≡ hours_of self.date }
    {
        match self.date.month {
            MARCH if self.is_last_sunday() => DayKind::March,
            OCTOBER if self.is_last_sunday() => DayKind::October,
            _ => DayKind::Ordinary,
        }
    }

    // Whether the local clock is in summer time when the day starts.
    #[tactic(auto, using(crate::proofs::DayTests::bounds), unfolding(crate::specs::Clock::starts_in_summer))]
    fn starts_in_summer(self) -> bool
        ensures { result ≡ starts_in_summer self.date }
    {
        let year = self.date.year;
        let march = Month {
            year,
            number: MARCH,
        };
        let october = Month {
            year,
            number: OCTOBER,
        };
        let day = self.count();
        march.change_day() < day && day <= october.change_day()
    }

    // How many minutes the local clock is ahead of UTC when the day starts.
    fn start_ahead(self) -> u32
        ensures value { result ≡ start_ahead self.date }
        ensures bound { result ≤ 120 }
    {
        if self.starts_in_summer() {
            SUMMER_TIME
        } else {
            WINTER_TIME
        }
    }

    // The instant of local midnight, in minutes.
    fn midnight(self) -> i64
        ensures value { result ≡ start_of self.date }
        ensures low { negsuc 119 ≤ℤ result }
        ensures high { result ≤ℤ pos 60000000 }
    {
        i64::from(self.count()) * DAY_MINUTES - i64::from(self.start_ahead())
    }
}
