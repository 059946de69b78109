// The calendar: leap years, the days of months, and days counted from 2000-01-01.
ghost use Rattle.std.specs.Prelude.{◌≡◌, ◌+◌, ◌-◌, ◌*◌, ◌≤◌};
ghost use Rattle.calendar.specs.Dates.{leap_year, year_days, month_days, days_to_year, days_to_month, day_number};
ghost use Rattle.calendar.specs.Clock.{last_sunday};

use crate::FIRST_YEAR;

#[tactic(auto, using(std::proofs::lemmas::Bool::Decides::nat_tests), unfolding(crate::specs::Dates::leap_year))]
fn is_leap(year: u32) -> bool
    ensures { result ≡ leap_year year }
{
    year % 4 == 0 && (year % 100 != 0 || year % 400 == 0)
}

fn days_in_year(year: u32) -> u32
    ensures { result ≡ year_days year }
{
    if is_leap(year) { 366 } else { 365 }
}

// What is no month has no days.
pub fn days_in_month(year: u32, month: u32) -> u32
    ensures { result ≡ month_days year month }
{
    match month {
        4 | 6 | 9 | 11 => 30,
        2 => { if is_leap(year) { 29 } else { 28 } }
        1 | 3 | 5 | 7 | 8 | 10 | 12 => 31,
        _ => 0,
    }
}

// A month of one of the years that are covered.
#[derive(Clone, Copy)]
pub(crate) struct Month {
    pub(crate) year: u32,
    pub(crate) number: u32,
    ghost year_covered: { (2000 ≤ year) × (year ≤ 2099) },
    ghost in_year: { (1 ≤ number) × (number ≤ 12) },
}

impl Month {
    // How many days it has.
    fn days(self) -> u32
        ensures value { result ≡ month_days self.year self.number }
        ensures least { 28 ≤ result }
        ensures most { result ≤ 31 }
    {
        days_in_month(self.year, self.number)
    }

    // The days from 2000-01-01 to its year.
    fn days_to_year(self) -> u32
        ensures value { result ≡ days_to_year (self.year - 2000) }
        ensures bound { result ≤ 36600 }
    {
        (FIRST_YEAR..self.year).map(days_in_year).sum()
    }

    // The days of its year before it.
    fn days_to_month(self) -> u32
        ensures value { result ≡ days_to_month (leap_year self.year) self.number }
        ensures bound { result ≤ 372 }
    {
        (1..self.number).map(|m| days_in_month(self.year, m)).sum()
    }

    // The days from 2000-01-01 to a day of this month.
    pub(crate) fn day_number(self, day: u32) -> u32
        requires { (1 ≤ day) × (day ≤ 31) }
        ensures value { result ≡ day_number self.year self.number day }
        ensures bound { result ≤ 40000 }
    {
        self.days_to_year() + self.days_to_month() + (day - 1)
    }

    // The day on which its last Sunday falls. Day 1 of the count is a Sunday.
    pub(crate) fn last_sunday(self) -> u32
        ensures value { result ≡ last_sunday self.year self.number }
        ensures first { 1 ≤ result }
        ensures last { result ≤ 31 }
    {
        let length = self.days();
        length - (self.day_number(length) + 6) % 7
    }

    // The day of the count on which the clock is changed in this month.
    pub(crate) fn change_day(self) -> u32
        ensures { result ≡ day_number self.year self.number (last_sunday self.year self.number) }
    {
        self.day_number(self.last_sunday())
    }
}
