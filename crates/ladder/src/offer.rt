// What a party offers, before it has a receipt.
ghost use Rattle.std.specs.Prelude.{◌≡◌};
ghost use Rattle.ladder.specs.Offered.{bid_of};

use market::{Bid, Direction, Portfolio};
use units::{Kilowatts, Party, Position, Price, Receipt};

#[derive(Clone, Copy)]
pub struct Offer {
    pub hour: Position,
    pub party: Party,
    pub portfolio: Portfolio,
    pub direction: Direction,
    pub volume: Kilowatts,
    pub price: Price,
}

impl Offer {
    // The bid that it becomes under that receipt. No `From`, since the receipt is needed besides.
    pub(crate) fn bid(self, receipt: Receipt) -> Bid
        ensures { result ≡ bid_of receipt.0 self }
    {
        Bid {
            hour: self.hour,
            receipt,
            party: self.party,
            portfolio: self.portfolio,
            direction: self.direction,
            volume: self.volume,
            price: self.price,
            held: false,
        }
    }
}
