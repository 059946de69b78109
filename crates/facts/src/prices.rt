// The balancing prices of an hour.
ghost use Rattle.std.specs.Prelude.{◌≡◌};
ghost use Rattle.facts.specs.Prices.{sets_price, balancing_price, NoFurther, ExtremeOrSpot};

use crate::listed::HourActivations;
use market::{Activation, Direction};
use units::Price;

impl HourActivations<'_> {
    // Whether the activation sets the price of that direction in the hour: it is listed and lasts long enough.
    fn sets_price(&self, activation: &Activation, minutes: u8, direction: Direction) -> bool
        ensures { result ≡ sets_price minutes self.now.hour direction activation.now }
    {
        self.is_listed(activation, direction) && activation.minutes() >= minutes
    }

    // The price furthest that way among the activations that set one; spot where none does.
    pub fn balancing_price(&self, minutes: u8, spot: Price, direction: Direction) -> Price
        ensures value { result ≡ balancing_price direction minutes spot self.now.hour self.now.activations.now }
        ensures reading { ExtremeOrSpot (NoFurther direction) (sets_price minutes self.now.hour direction) spot self.now.activations.now result }
    {
        let prices = self
            .activations
            .iter()
            .filter(|activation| self.sets_price(activation, minutes, direction))
            .map(|activation| activation.price);
        let furthest = match direction {
            Direction::Up => prices.max(),
            Direction::Down => prices.min(),
        };
        furthest.unwrap_or(spot)
    }
}
