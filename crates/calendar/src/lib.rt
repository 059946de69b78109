// Dates, the hours of the local day, instants, and the stamps of its hours.
#![tactic(auto)]

mod counting;
mod days;
mod kinds;
mod printed;
mod stamps;
mod worked;

pub use counting::days_in_month;
pub use worked::worked_dates;

// A date; any numbers are taken, and one that is not covered has no hours.
#[derive(Clone, Copy, PartialEq, Eq, Debug)]
pub struct Date {
    pub year: u32,
    pub month: u32,
    pub day: u32,
}

// Minutes from 2000-01-01 00:00 UTC.
#[derive(Clone, Copy, PartialEq, Eq, PartialOrd, Ord, Debug)]
pub struct Instant(pub i64);

// Tells apart the two hours of one number that the October day has.
#[derive(Clone, Copy, PartialEq, Eq, Debug)]
pub enum Mark {
    Unmarked,
    A,
    B,
}

const FIRST_YEAR: u32 = 2000;

const LAST_YEAR: u32 = 2099;

const MARCH: u32 = 3;

const OCTOBER: u32 = 10;

// Minutes that the local clock is ahead of UTC.
const WINTER_TIME: u32 = 60;

const SUMMER_TIME: u32 = 120;

const HOUR_MINUTES: i64 = 60;

const DAY_MINUTES: i64 = 1440;
