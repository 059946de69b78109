// The kinds of a covered day: how many hours it has, how far ahead the clock is through it, and the stamps of its positions.
ghost use Rattle.std.specs.Prelude.{◌≡◌, ◌<◌};
ghost use Rattle.calendar.specs.Clock.{ahead_in};
ghost use Rattle.calendar.specs.Stamps.{stamp_of, position_of};
ghost use Rattle.calendar.specs.Kinds.{kind_hours};

use crate::{Mark, SUMMER_TIME, WINTER_TIME};

// The hour that the March day leaves out and the October day has twice.
const CHANGED_HOUR: usize = 2;

// On the March day the clock is set forward, on the October day it is set back.
#[derive(Clone, Copy)]
pub(crate) enum DayKind {
    March,
    Ordinary,
    October,
}

impl DayKind {
    pub(crate) fn hours(self) -> usize
        ensures { result ≡ kind_hours self }
    {
        match self {
            DayKind::March => 23,
            DayKind::Ordinary => 24,
            DayKind::October => 25,
        }
    }

    // How many minutes the local clock is ahead at a position of such a day that starts that far ahead.
    pub(crate) fn ahead_in(self, start_ahead: u32, p: usize) -> u32
        ensures { result ≡ ahead_in (kind_hours self) start_ahead p }
    {
        match self {
            DayKind::March if p < CHANGED_HOUR => WINTER_TIME,
            DayKind::March => SUMMER_TIME,
            DayKind::Ordinary => start_ahead,
            DayKind::October if p <= CHANGED_HOUR => SUMMER_TIME,
            DayKind::October => WINTER_TIME,
        }
    }

    // The stamp of a position.
    pub(crate) fn stamp(self, p: u8) -> (u8, Mark)
        requires { p < kind_hours self }
        ensures { result ≡ stamp_of (kind_hours self) p }
    {
        match (self, p) {
            (DayKind::March, 2..) => (p + 1, Mark::Unmarked),
            (DayKind::October, 2) => (2, Mark::A),
            (DayKind::October, 3) => (2, Mark::B),
            (DayKind::October, 4..) => (p - 1, Mark::Unmarked),
            _ => (p, Mark::Unmarked),
        }
    }

    // The position of a stamp, where such a day has it.
    pub(crate) fn position(self, hour: usize, mark: Mark) -> Option<usize>
        ensures { result ≡ position_of (kind_hours self) hour mark }
    {
        match (self, mark, hour) {
            (_, _, 24..) => None,
            (DayKind::October, Mark::A, CHANGED_HOUR) => Some(2),
            (DayKind::October, Mark::B, CHANGED_HOUR) => Some(3),
            (_, Mark::A | Mark::B, _) => None,
            (DayKind::Ordinary, _, _) | (_, _, ..CHANGED_HOUR) => Some(hour),
            (_, _, CHANGED_HOUR) => None,
            (DayKind::March, _, _) => Some(hour - 1),
            (DayKind::October, _, _) => Some(hour + 1),
        }
    }
}
