// What imbalances and activations are paid, in mills, at full width.
ghost use Rattle.std.specs.Prelude.{◌≡◌, ◌^◌, if◌then◌else◌};
ghost use Rattle.integers.specs.Near.{Near};
ghost use Rattle.settlement.specs.Payments.{priced, payment, is_long};
ghost use Rattle.billing.specs.Booked.{price_of};

use market::{Activation, Direction, Kind};
use pricing::{Facts, PricePair};
use units::{KilowattHours, Price};

// A surplus is paid at its price, a shortfall charged at its own.
pub fn priced(pair: PricePair, imbalance: KilowattHours) -> i128
    ensures value { result ≡ priced pair imbalance.0 }
    ensures bound { Near (2 ^ 94) result }
{
    let price = if imbalance < KilowattHours(0) {
        pair.shortfall
    } else {
        pair.surplus
    };
    i128::from(imbalance.0) * i128::from(price.0)
}

// What activations are paid on.
#[derive(Clone, Copy)]
pub struct Terms {
    // How long an activation lasts to set a price.
    pub minutes: u8,
    pub facts: Facts,
}

impl Terms {
    // A listed activation that lasts so long has the price of its direction, a short or a special one its own.
    fn price_of(&self, activation: &Activation) -> Price
        ensures { result ≡ (if is_long self.now.minutes activation.now then price_of self.now.facts activation.now.direction else activation.now.price) }
    {
        if activation.kind == Kind::Special || activation.minutes() < self.minutes {
            return activation.price;
        }
        match activation.direction {
            Direction::Up => self.facts.up_price,
            Direction::Down => self.facts.down_price,
        }
    }

    // Upward energy is paid, downward energy charged.
    pub fn payment(&self, activation: &Activation) -> i128
        ensures value { result ≡ payment self.now.minutes self.now.facts activation.now }
        ensures bound { Near (2 ^ 66) result }
    {
        let price = self.price_of(activation);
        let energy = i128::from(activation.energy().0);
        let signed = match activation.direction {
            Direction::Up => energy,
            Direction::Down => -energy,
        };
        signed * i128::from(price.0)
    }
}
