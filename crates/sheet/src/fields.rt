// What stands on each line of the sheet.
ghost use Rattle.std.specs.Prelude.{◌≡◌};
ghost use Rattle.day.specs.View.{metered};
ghost use Rattle.sheet.specs.Sheet.{day_fields, settled_fields, hour_fields, party_fields, operator_fields};

use calendar::Mark;
use day::MeteredDay;
use pricing::Prices;
use units::{KilowattHours, Party, Position};
use writers::Field;

// The date and how many hours it has.
pub(crate) fn day_fields(day: &MeteredDay) -> [Field; 2]
    ensures { result ≡ day_fields (metered day.now) }
{
    let timetable = day.timetable();
    [
        Field::Day(timetable.date()),
        Field::TwoDigits(timetable.hours()),
    ]
}

// The stamp of a settled hour, its net energy and its prices.
fn settled_fields(stamp: (u32, Mark), energy: KilowattHours, prices: &Prices) -> [Field; 6]
    ensures { result ≡ settled_fields stamp energy.0 prices.now }
{
    let (number, mark) = stamp;
    [
        Field::Stamp(number as usize, mark),
        Field::Number(energy.0),
        Field::Number(i64::from(prices.production.surplus.0)),
        Field::Number(i64::from(prices.production.shortfall.0)),
        Field::Number(i64::from(prices.consumption_and_trade.surplus.0)),
        Field::Number(i64::from(prices.consumption_and_trade.shortfall.0)),
    ]
}

// Those of an hour; none where it is not settled.
pub(crate) fn hour_fields(day: &MeteredDay, hour: Position) -> Option<[Field; 6]>
    ensures { result ≡ hour_fields (metered day.now) hour.0 }
{
    let stamp = day.timetable().stamp(hour).ok()?;
    let facts = day.facts(hour).ok()?;
    let prices = day.prices_of(hour)?;
    Some(settled_fields(stamp, facts.net_energy, &prices))
}

// The number of an entered party and its account.
pub(crate) fn party_fields(day: &MeteredDay, party: Party) -> Option<[Field; 2]>
    ensures { result ≡ party_fields (metered day.now) party.0 }
{
    let account = day.account(party).ok()?;
    Some([Field::TwoDigits(party.0), Field::Number(account.0)])
}

// The operator's account.
pub(crate) fn operator_fields(day: &MeteredDay) -> [Field; 1]
    ensures { result ≡ operator_fields (metered day.now) }
{
    [Field::Number(day.operator_account().0)]
}
