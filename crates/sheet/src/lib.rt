// The sheet of a metered day: the day, its settled hours, the accounts of its parties and the operator's, a line each.
#![tactic(auto)]

ghost use Rattle.std.specs.Prelude.{◌≡◌, length};
ghost use Rattle.refusal.specs.Outcome.{Outcome};
ghost use Rattle.day.specs.View.{metered};
ghost use Rattle.writers.specs.Counting.{saturated};
ghost use Rattle.sheet.specs.Sheet.{sheet_text, sheet_row, Written};

use day::MeteredDay;
use fields::{day_fields, hour_fields, operator_fields, party_fields};
use lines::{write_line, write_lines};
use refusal::Refusal;
use units::{Party, Position};
use writers::{Counter, Cursor, Sink};

mod fields;
mod lines;

// Gives the sheet to a sink: its hours in order of position, its parties in order of number.
fn write_sheet_to<S: Sink>(sink: &mut S, day: &MeteredDay)
    ensures { S.takes sink.old (sheet_text (metered day.now)) sink.new }
{
    let timetable = day.timetable();
    write_line(sink, b"DAY", &day_fields(day));
    write_lines(
        sink,
        b"H",
        timetable.hours(),
        |hour| hour_fields(day, Position(hour)),
    );
    write_lines(
        sink,
        b"P",
        timetable.parties(),
        |party| party_fields(day, Party(party)),
    );
    write_line(sink, b"O", &operator_fields(day));
}

// How many bytes the sheet takes.
fn sheet_length(day: &MeteredDay) -> usize
    ensures { result ≡ saturated (length (sheet_text (metered day.now))) }
{
    let mut counter = Counter::default();
    write_sheet_to(&mut counter, day);
    counter.count
}

// Writes the day's sheet from the start of the buffer, and answers how many bytes it took; the bytes after it stay.
// A buffer that is too short for it is refused, and stays as it is.
pub fn write_sheet(day: &MeteredDay, sheet: &mut [u8]) -> Result<usize, Refusal>
    ensures { Outcome (sheet_row (metered day.now) sheet.old) result (sheet.new ≡ sheet.old) (λ n. Written (sheet_text (metered day.now)) sheet.old n sheet.new) }
{
    let length = sheet_length(day);
    if sheet.len() < length {
        return Err(Refusal::SheetTooShort);
    }
    let mut cursor = Cursor::new(sheet);
    write_sheet_to(&mut cursor, day);
    Ok(length)
}
