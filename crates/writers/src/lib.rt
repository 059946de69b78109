// Writers of the fields of a sheet. Each writes its text from the start of the part of the sheet that it is given, and
// answers how many bytes that took; where the part is too short it writes nothing.
#![tactic(auto)]

ghost use Rattle.std.specs.Prelude.{◌≡◌, ◌≤◌, length};
ghost use Rattle.writers.specs.Text.{digit as digitOf, two_digits, text_of_date, stamp_text, number_text, field_text};
ghost use Rattle.writers.specs.Laid.{Wrote};

use calendar::{Date, Mark};

mod sink;

pub use sink::{Counter, Cursor, Sink};

// What stands between two spaces of a line. An enum and no closure, since the text of the sheet is defined by it.
#[derive(Clone, Copy)]
pub enum Field {
    Day(Date),
    TwoDigits(usize),
    Stamp(usize, Mark),
    Number(i64),
}

// A text as it is.
pub fn write_bytes(part: &mut [u8], text: &[u8]) -> usize
    ensures { Wrote text.now part.old result part.new }
{
    let count = text.len();
    if part.len() < count {
        return 0;
    }
    part[0..count].copy_from_slice(text);
    count
}

// The last digit of a number. By hand, since `Display` promises its text only where no error is answered.
fn digit(n: usize) -> u8
    ensures { result ≡ digitOf n }
{
    b'0' + (n % 10) as u8
}

// The last two digits of a number.
pub fn write_two_digits(part: &mut [u8], n: usize) -> usize
    ensures { Wrote (two_digits n) part.old result part.new }
{
    write_bytes(part, &[digit(n / 10), digit(n)])
}

// A date, YYYY-MM-DD.
pub fn write_date(part: &mut [u8], date: Date) -> usize
    ensures { Wrote (text_of_date date) part.old result part.new }
{
    let year = date.year as usize;
    let month = date.month as usize;
    let day = date.day as usize;
    let text = [
        digit(year / 1000),
        digit(year / 100),
        digit(year / 10),
        digit(year),
        b'-',
        digit(month / 10),
        digit(month),
        b'-',
        digit(day / 10),
        digit(day),
    ];
    write_bytes(part, &text)
}

// A stamp: two digits and its mark.
pub fn write_stamp(part: &mut [u8], number: usize, mark: Mark) -> usize
    ensures { Wrote (stamp_text number mark) part.old result part.new }
{
    let tens = digit(number / 10);
    let ones = digit(number);
    match mark {
        Mark::Unmarked => write_bytes(part, &[tens, ones]),
        Mark::A => write_bytes(part, &[tens, ones, b'A']),
        Mark::B => write_bytes(part, &[tens, ones, b'B']),
    }
}

// A number, with a dash before a negative one.
pub fn write_number(part: &mut [u8], n: i64) -> usize
    ensures wrote { Wrote (number_text n) part.old result part.new }
    ensures most { length (number_text n) ≤ 20 }
{
    write_bytes(part, itoa::Buffer::new().format(n).as_bytes())
}

// A field, whichever it is.
pub fn write_field(part: &mut [u8], field: Field) -> usize
    ensures wrote { Wrote (field_text field) part.old result part.new }
    ensures most { length (field_text field) ≤ 20 }
{
    match field {
        Field::Day(date) => write_date(part, date),
        Field::TwoDigits(n) => write_two_digits(part, n),
        Field::Stamp(number, mark) => write_stamp(part, number, mark),
        Field::Number(n) => write_number(part, n),
    }
}

// As many bytes as the longest number takes.
const LONGEST: usize = 20;

// How many bytes a field takes: as many as it fills of room for the longest.
pub fn field_length(field: Field) -> usize
    ensures value { result ≡ length (field_text field) }
    ensures most { result ≤ 20 }
{
    let mut room = [0u8; LONGEST];
    write_field(&mut room, field)
}
