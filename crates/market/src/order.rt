// The order in which bids and activations stand. Bids of a direction: by hour, then price, the best for the area first,
// then receipt. Activations: by hour, then first minute, then number of arrival.
ghost use Rattle.std.specs.Prelude.{◌≡◌};
ghost use Rattle.market.specs.Order.{bid_before, bid_same, price_key, activation_before, activation_same, bid_key, activation_key};
ghost use Rattle.ordered.proofs.Lexical.{lex_order};

use crate::words::{Activation, Bid, Direction};
use ordered::Ranked;
use std::cmp::Ordering;
use units::{Position, Receipt};

// The price as it ranks: upward the lowest stands first, downward the highest.
// A method of Direction for this would have to say what becomes of the least number of 64 bits, which has no negative.
fn price_key(bid: &Bid) -> i64
    ensures { result ≡ price_key bid.now }
{
    match bid.direction {
        Direction::Up => i64::from(bid.price.0),
        Direction::Down => -i64::from(bid.price.0),
    }
}

impl Bid {
    fn key(&self) -> (Direction, Position, i64, Receipt)
        ensures { result ≡ (self.now.direction, self.now.hour, price_key self.now, self.now.receipt) }
    {
        (self.direction, self.hour, price_key(self), self.receipt)
    }
}

impl Ranked for Bid {
    ghost before = { bid_before };

    ghost same = { bid_same };

    ghost order = { lex_order bid_key };

    fn compare(&self, other: &Bid) -> Ordering {
        self.key().cmp(&other.key())
    }
}

impl Activation {
    fn key(&self) -> (Position, u8, u32)
        ensures { result ≡ (self.now.hour, self.now.minutes.first, self.now.arrival) }
    {
        (self.hour, self.minutes.first, self.arrival)
    }
}

impl Ranked for Activation {
    ghost before = { activation_before };

    ghost same = { activation_same };

    ghost order = { lex_order activation_key };

    fn compare(&self, other: &Activation) -> Ordering {
        self.key().cmp(&other.key())
    }
}
