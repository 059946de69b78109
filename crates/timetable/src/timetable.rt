// The timetable, with what holds of it at all times.
ghost use Rattle.std.specs.Prelude.{◌≡◌, ◌<◌, ◌≤◌, true, length};
ghost use Rattle.market.specs.Figures.{most_parties};
ghost use Rattle.calendar.specs.Clock.{hours_of};
ghost use Rattle.timetable.specs.Prices.{each_within};
ghost use Rattle.timetable.specs.Span.{Spanned};

use calendar::{Date, Instant};
use units::Price;

mod calls;
mod opens;
mod parts;
mod reads;

#[derive(Drop)]
pub struct Timetable {
    date: Date,
    start: Instant,
    // The spot price of each hour. A day without hours has none.
    spot: Vec<Price>,
    clock: Instant,
    parties: usize,
    ghost hours: { (0 < length spot.items → length spot.items ≡ hours_of date) },
    ghost prices: { each_within spot.items ≡ true },
    ghost started: { Spanned start.0 },
    ghost reached: { Spanned clock.0 },
    ghost entered: { parties ≤ most_parties },
}
