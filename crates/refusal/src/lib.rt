// Why a call is refused. Each case has a number, which users of the engine see.
#![tactic(auto)]

ghost use Rattle.std.specs.Prelude.{◌≡◌};
ghost use Rattle.refusal.specs.Refusals.{refusal_number};

use std::error::Error;
use std::fmt;

#[derive(Clone, Copy, PartialEq, Eq, Debug)]
pub enum Refusal {
    NotInDay = 1,
    UnknownParty = 2,
    WrongPair = 3,
    OutOfRange = 4,
    TooLate = 5,
    ClockBack = 6,
    NoRoom = 7,
    WrongSideOfSpot = 8,
    NoSuchBid = 9,
    AlreadySettled = 10,
    ReadingMissing = 11,
    SheetTooShort = 12,
}

impl Refusal {
    // Its number in the table.
    pub fn number(self) -> u8
        ensures { result ≡ refusal_number self }
    {
        self as u8
    }

    fn meaning(self) -> &'static str {
        match self {
            Refusal::NotInDay => "not in the day",
            Refusal::UnknownParty => "a party that is not entered",
            Refusal::WrongPair => "a notice between two that may not trade so",
            Refusal::OutOfRange => "a figure outside its range, or a date without hours",
            Refusal::TooLate => "too late",
            Refusal::ClockBack => "the clock would go back",
            Refusal::NoRoom => "no room for one more",
            Refusal::WrongSideOfSpot => "a price on the wrong side of spot",
            Refusal::NoSuchBid => "no such bid stands",
            Refusal::AlreadySettled => "the hour is settled already",
            Refusal::ReadingMissing => "a reading is missing",
            Refusal::SheetTooShort => "the buffer is too short for the sheet",
        }
    }
}

impl fmt::Display for Refusal {
    fn fmt<W: fmt::Write>(&self, f: &mut fmt::Formatter<W>) -> fmt::Result {
        write!(f, "refused with {}: {}", self.number(), self.meaning())
    }
}

impl Error for Refusal {}
