// The middle of an hour.
ghost use Rattle.std.specs.Prelude.{◌≡◌};
ghost use Rattle.facts.specs.Middle.{middle, standing_middle, MidpointOrSpot, Halfway};

use ladder::standing::{highest_price, lowest_price};
use market::Bid;
use units::{Position, Price};

const SIDES: i64 = 2;

// Halfway between the upward and the downward price, rounded down; spot where one of them is missing.
pub fn middle(up: Option<Price>, down: Option<Price>, spot: Price) -> Price
    ensures value { result ≡ middle up down spot }
    ensures reading { MidpointOrSpot up down spot result }
{
    up.zip(down).map_or(spot, |(up, down)| {
        let sum = i64::from(up.0) + i64::from(down.0);
        Price(sum.div_euclid(SIDES) as i32)
    })
}

// The middle of the hour, from its standing bids of either direction, held ones included.
pub fn standing_middle(spot: Price, hour: Position, ups: &[Bid], downs: &[Bid]) -> Price
    ensures value { result ≡ standing_middle spot hour ups.now downs.now }
    ensures reading { Halfway spot hour ups.now downs.now result }
{
    middle(lowest_price(ups, hour), highest_price(downs, hour), spot)
}
