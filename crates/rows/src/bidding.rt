// Bids, and the standing bids that are withdrawn.
ghost use Rattle.std.specs.Prelude.{◌≡◌};
ghost use Rattle.timetable.specs.View.{times};
ghost use Rattle.rows.specs.Rows.{checked, bid_row, withdraw_row};

use crate::asking::{check_hour, check_party};
use crate::fits::{bid_fits, is_right_side};
use ladder::Offer;
use market::Bid;
use refusal::Refusal;
use timetable::Timetable;

// `room`: there is room for one more bid and one more receipt.
pub fn check_bid(timetable: &Timetable, offer: &Offer, room: bool) -> Result<(), Refusal>
    ensures { result ≡ checked (bid_row (times timetable.now) offer.now room) }
{
    check_hour(timetable, offer.hour)?;
    check_party(timetable, offer.party)?;
    if !bid_fits(offer.volume, offer.price) {
        return Err(Refusal::OutOfRange);
    }
    if timetable.gate_closed(offer.hour) {
        return Err(Refusal::TooLate);
    }
    if !room {
        return Err(Refusal::NoRoom);
    }
    if !is_right_side(offer.direction, timetable.spot(offer.hour), offer.price) {
        return Err(Refusal::WrongSideOfSpot);
    }
    Ok(())
}

// `standing`: the standing bid with the receipt that was named.
pub fn check_withdraw(timetable: &Timetable, standing: Option<Bid>) -> Result<(), Refusal>
    ensures { result ≡ checked (withdraw_row (times timetable.now) standing) }
{
    let bid = standing.ok_or(Refusal::NoSuchBid)?;
    if timetable.gate_closed(bid.hour) {
        return Err(Refusal::TooLate);
    }
    Ok(())
}
