// What a date and a mark print.
ghost use Rattle.std.specs.Prelude.{Some};
ghost use Rattle.calendar.specs.Printed.{date_printed, mark_printed};

use crate::{Date, Mark};
use std::fmt;

// YYYY-MM-DD.
impl fmt::Display for Date {
    ghost output = { λ date. Some (date_printed date) };

    fn fmt<W: fmt::Write>(&self, f: &mut fmt::Formatter<W>) -> fmt::Result {
        write!(f, "{:04}-{:02}-{:02}", self.year, self.month, self.day)
    }
}

// An hour without a mark prints a space, so that the hours of a day stand in columns.
impl fmt::Display for Mark {
    ghost output = { λ mark. Some (mark_printed mark) };

    fn fmt<W: fmt::Write>(&self, f: &mut fmt::Formatter<W>) -> fmt::Result {
        f.write_str(match self {
            Mark::Unmarked => " ",
            Mark::A => "A",
            Mark::B => "B",
        })
    }
}
