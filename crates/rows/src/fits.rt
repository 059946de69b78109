// The tests that several calls share.
ghost use Rattle.std.specs.Prelude.{◌≡◌};
ghost use Rattle.timetable.specs.View.{times};
ghost use Rattle.rows.specs.Tests.{bid_fits, known, minutes_fit, outside, right_side, special_fits};

use market::figures::{
    FIRST_OUTSIDE, GREATEST_BID_VOLUME, GREATEST_SPECIAL_VOLUME, LEAST_BID_VOLUME,
    LEAST_SPECIAL_VOLUME, MINUTES_IN_HOUR, OUTSIDE_PARTIES,
};
use market::{Activation, Direction, Minutes};
use timetable::{Timetable, within_limit};
use units::{Kilowatts, Party, Price};

// A counterparty outside the area.
pub(crate) fn is_outside(party: Party) -> bool
    ensures { result ≡ outside party.0 }
{
    (FIRST_OUTSIDE..FIRST_OUTSIDE + OUTSIDE_PARTIES).contains(&party.0)
}

pub(crate) fn is_known(timetable: &Timetable, party: Party) -> bool
    ensures { result ≡ known (times timetable.now) party.0 }
{
    timetable.has_party(party) || is_outside(party)
}

// An activation lasts at least a minute, and ends with its hour at the latest.
pub(crate) fn minutes_fit(minutes: Minutes) -> bool
    ensures { result ≡ minutes_fit minutes.first minutes.last }
{
    minutes.first < minutes.last && minutes.last <= MINUTES_IN_HOUR
}

pub(crate) fn bid_fits(volume: Kilowatts, price: Price) -> bool
    ensures { result ≡ bid_fits volume.0 price }
{
    (LEAST_BID_VOLUME..=GREATEST_BID_VOLUME).contains(&volume.0) && within_limit(price)
}

pub(crate) fn special_fits(activation: &Activation) -> bool
    ensures { result ≡ special_fits activation.now }
{
    minutes_fit(activation.minutes)
        && (LEAST_SPECIAL_VOLUME..=GREATEST_SPECIAL_VOLUME).contains(&activation.volume.0)
        && within_limit(activation.price)
}

// Whether a bid of that direction may have this price: upward spot or more, downward spot or less.
pub(crate) fn is_right_side(direction: Direction, spot: Price, price: Price) -> bool
    ensures { result ≡ right_side direction spot price }
{
    match direction {
        Direction::Up => spot <= price,
        Direction::Down => price <= spot,
    }
}
