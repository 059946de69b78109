// Dates as text, YYYY-MM-DD.
#![tactic(auto)]

ghost use Rattle.std.specs.Prelude.{ℕ, MatchOption};
ghost use Rattle.calendar.specs.declared.Date.{Date as TheDate};
ghost use Rattle.date_text.specs.Written.{DateText, TwoDigits};

use calendar::Date;

const DASH: u8 = b'-';

fn two_digits(tens: u8, ones: u8) -> Option<u32>
    ensures { MatchOption result ((n : ℕ) → TwoDigits n tens ones → ⊥) (λ n. TwoDigits n tens ones) }
{
    Some(10 * char::from(tens).to_digit(10)? + char::from(ones).to_digit(10)?)
}

// The date whose text this is, covered or not; None where it is no date's.
pub fn parse_date(text: &str) -> Option<Date>
    ensures { MatchOption result ((date : TheDate) → DateText date text.now → ⊥) (λ date. DateText date text.now) }
{
    // A text of another form has no date: the pattern's `else`, which no `?` can say.
    let &[c1, c2, y1, y2, DASH, m1, m2, DASH, d1, d2] = text.as_bytes() else {
        return None;
    };
    let century = two_digits(c1, c2)?;
    let of_century = two_digits(y1, y2)?;
    Some(Date {
        year: 100 * century + of_century,
        month: two_digits(m1, m2)?,
        day: two_digits(d1, d2)?,
    })
}
