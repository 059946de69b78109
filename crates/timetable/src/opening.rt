// Whether a day can be opened with these prices.
ghost use Rattle.std.specs.Prelude.{◌≡◌};
ghost use Rattle.timetable.specs.Opening.{opening_row};
ghost use Rattle.timetable.specs.Prices.{each_within, priced, within_limit};

use calendar::Date;
use market::figures::PRICE_LIMIT;
use refusal::Refusal;
use units::Price;

// Whether a price is no further from zero than it may be.
pub fn within_limit(price: Price) -> bool
    ensures { result ≡ within_limit price }
{
    (-PRICE_LIMIT..=PRICE_LIMIT).contains(&price.0)
}

fn all_within_limit(prices: &[i32]) -> bool
    ensures { result ≡ each_within (priced prices.now) }
{
    prices.iter().all(|price| within_limit(Price(*price)))
}

// Why a day of that date cannot be opened with these prices, one for each hour; none where it can.
// It is a question, so no Err: where it names a refusal, `Timetable::open` answers the day without hours.
pub fn opening_refusal(date: Date, prices: &[i32]) -> Option<Refusal>
    ensures { result ≡ opening_row date prices.now }
{
    let hours = date.hours();
    if prices.len() != hours {
        Some(Refusal::NotInDay)
    } else if hours == 0 || !all_within_limit(prices) {
        Some(Refusal::OutOfRange)
    } else {
        None
    }
}
