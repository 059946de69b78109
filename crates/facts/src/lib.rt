// The facts of an hour: what a pricing policy looks at, from its spot price, listed activations and standing bids.
#![tactic(auto)]

ghost use Rattle.std.specs.Prelude.{◌≡◌};
ghost use Rattle.register.specs.Totals.{Few};
ghost use Rattle.pricing.specs.Policies.{Regular};
ghost use Rattle.facts.specs.Facts.{facts_of, facts_alone, Told};
ghost use Rattle.facts.specs.Sound.{Sound};

use crate::listed::HourActivations;
use crate::middle::standing_middle;
use market::{Activation, Bid, Direction};
use pricing::Facts;
use units::{Position, Price};

mod listed;
mod middle;
mod minutes;
mod prices;
pub mod worked;

// An activation sets a price if it lasts at least so many minutes. The bids are the standing ones of either direction. What
// rests on few activations is a premise: a type of few would ask it of callers who need no exact sums.
pub fn facts_of(
    minutes: u8,
    spot: Price,
    hour: Position,
    activations: &[Activation],
    ups: &[Bid],
    downs: &[Bid],
) -> Facts
    ensures exact { Few activations.now → result ≡ facts_of minutes spot hour activations.now ups.now downs.now }
    ensures alone { Few activations.now → result ≡ facts_alone minutes spot hour activations.now ups.now downs.now }
    ensures told { Told minutes spot hour activations.now ups.now downs.now result }
    ensures regular { Sound spot hour activations.now ups.now downs.now → Regular result }
{
    let of_hour = HourActivations { hour, activations };
    let (rose, fell) = of_hour.rose_and_fell();
    Facts {
        spot,
        up_price: of_hour.balancing_price(minutes, spot, Direction::Up),
        down_price: of_hour.balancing_price(minutes, spot, Direction::Down),
        middle: standing_middle(spot, hour, ups, downs),
        net_energy: of_hour.net_energy(),
        rose,
        fell,
        went_up: of_hour.went(Direction::Up),
        went_down: of_hour.went(Direction::Down),
    }
}
