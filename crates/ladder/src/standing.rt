// Questions asked of the standing bids of one direction.
ghost use Rattle.ladder.specs.Standing.{First, Free, Numbered, Extreme, NoLower, NoHigher};

use market::Bid;
use units::{Position, Price, Receipt};

// Where the first bid of the hour stands that is not held.
pub fn first_free(bids: &[Bid], hour: Position) -> Option<usize>
    ensures { First (Free hour) bids.now result }
{
    let mut place = 0;
    // A rule of the project: this search breaks with the place found.
    loop {
        match bids.get(place) {
            None => break None,
            Some(bid) if bid.hour == hour && !bid.held => break Some(place),
            Some(_) => place += 1,
        }
    }
}

// Where the first bid with that receipt stands.
pub fn find_receipt(bids: &[Bid], receipt: Receipt) -> Option<usize>
    ensures { First (Numbered receipt) bids.now result }
{
    bids.iter().position(|bid| bid.receipt == receipt)
}

// The lowest price of the hour, held bids included.
pub fn lowest_price(bids: &[Bid], hour: Position) -> Option<Price>
    ensures { Extreme NoLower hour bids.now result }
{
    bids.iter()
        .filter(|bid| bid.hour == hour)
        .map(|bid| bid.price)
        .min()
}

// The highest price of the hour, held bids included. The lowest has `min` for `max`: a function over the pick would be longer.
pub fn highest_price(bids: &[Bid], hour: Position) -> Option<Price>
    ensures { Extreme NoHigher hour bids.now result }
{
    bids.iter()
        .filter(|bid| bid.hour == hour)
        .map(|bid| bid.price)
        .max()
}
