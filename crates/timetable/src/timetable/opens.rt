// How a day is opened.
ghost use Rattle.std.specs.Prelude.{◌≡◌, IfOk};
ghost use Rattle.timetable.specs.Opening.{empty_opening, opened_times, times_at};
ghost use Rattle.timetable.specs.Prices.{priced};
ghost use Rattle.timetable.specs.View.{times};

use super::Timetable;
use crate::opening::opening_refusal;
use calendar::{Date, Instant};
use market::figures::OPENING_LEAD_MINUTES;
use std::alloc::{AllocError, Global};
use units::Price;

// Of the day without hours.
const EMPTY_DATE: Date = Date {
    year: 2000,
    month: 1,
    day: 1,
};

const EMPTY_START: i64 = -60;

const LEAD: i64 = OPENING_LEAD_MINUTES as i64;

fn spot_prices(heap: Global, prices: &[i32]) -> Result<Vec<Price>, AllocError>
    ensures { IfOk result (λ spot. spot.items ≡ priced prices.now) }
{
    prices.iter().map(|price| Price(*price)).collect(heap)
}

impl Timetable {
    // A day without hours, which stands where none could be opened.
    fn empty(heap: Global) -> Timetable
        ensures { times result ≡ times_at empty_opening }
    {
        Timetable {
            date: EMPTY_DATE,
            start: Instant(EMPTY_START),
            spot: Vec::new(heap),
            clock: Instant(EMPTY_START - LEAD),
            parties: 0,
        }
    }

    // The day of that date with these prices, or a day without hours where that is refused.
    // The memory for the prices is reserved here, so nothing later can want for it.
    pub fn open(heap: Global, date: Date, prices: &[i32]) -> Result<Timetable, AllocError>
        ensures { IfOk result (λ t. times t ≡ opened_times date prices.now) }
    {
        // One pattern for both: a refusal and a day without a start alike give the day without hours, so no `?` fits.
        let (None, Ok(start)) = (opening_refusal(date, prices), date.start()) else {
            return Ok(Timetable::empty(heap));
        };
        let spot = spot_prices(heap, prices)?;
        Ok(Timetable {
            date,
            start,
            spot,
            clock: Instant(start.0 - LEAD),
            parties: 0,
        })
    }
}
