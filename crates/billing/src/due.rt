// What a settlement books for a party.
ghost use Rattle.std.specs.Prelude.{◌≡◌, ◌^◌};
ghost use Rattle.integers.specs.Near.{Near};
ghost use Rattle.settlement.specs.Payments.{regulation_to};
ghost use Rattle.billing.specs.declared.book.Metered.{Metered};
ghost use Rattle.billing.specs.Booked.{hour_in, of_party, Booked};

use crate::book::{HourBook, Metered};
use crate::narrow::narrowed;
use crate::payments::{Terms, priced};
use market::{Activation, Portfolio};
use pricing::Prices;
use units::{Mills, Party};

impl HourBook<'_> {
    // Whether the activation is the party's, in the hour.
    fn is_of(&self, party: Party, activation: &Activation) -> bool
        ensures { result ≡ of_party self.now.position party.0 activation.now }
    {
        activation.hour == self.position && activation.party == party
    }

    // What the party's activations of the hour are paid, less what they are charged.
    pub fn regulation_to(&self, terms: &Terms, party: Party) -> i128
        ensures value { (metered : Metered) → result ≡ regulation_to terms.now.minutes terms.now.facts (hour_in self.now metered) party.0 }
        ensures bound { Near (2 ^ 75) result }
    {
        self.register
            .as_slice()
            .iter()
            .filter(|activation| self.is_of(party, activation))
            .map(|activation| terms.payment(activation))
            .sum()
    }

    // The two imbalances priced, each alone, and the activations paid.
    pub fn due(&self, terms: &Terms, prices: &Prices, metered: Metered) -> Mills
        ensures { Booked terms.now.minutes terms.now.facts prices.now (hour_in self.now metered) metered.party.0 result.0 }
    {
        let production = self.imbalance(Portfolio::Production, metered);
        let consumption = self.imbalance(Portfolio::ConsumptionAndTrade, metered);
        let imbalances = priced(prices.production, production)
            + priced(prices.consumption_and_trade, consumption);
        Mills(narrowed(imbalances + self.regulation_to(terms, metered.party)))
    }
}
