// Pricing policies: from the facts of an hour to the four prices that its imbalances are settled at.
// Anyone can write a policy. It answers by one fixed function of the facts, and that function shows the market's rules.
#![tactic(auto)]

ghost use Rattle.std.specs.Prelude.{◌≡◌};
ghost use Rattle.pricing.specs.declared.Facts.{Facts};
ghost use Rattle.pricing.specs.declared.Prices.{Prices};
ghost use Rattle.pricing.specs.Policies.{all_at, pair_at, pair_for_all, priced_by, Regular, Bounded, NoSurplusAboveAShortfall, AroundTheOneWay, ShowsRules};

use units::{KilowattHours, Price};

pub mod policies;
pub mod worked;

// All that a policy may look at.
#[derive(Clone, Copy)]
pub struct Facts {
    pub spot: Price,
    // The balancing prices of the two directions.
    pub up_price: Price,
    pub down_price: Price,
    pub middle: Price,
    // Above 0 where upward energy outweighs downward, below 0 where downward does.
    pub net_energy: KilowattHours,
    // Whether the balance delta of some minute is above, or below, that of the minute before.
    pub rose: bool,
    pub fell: bool,
    // Whether some listed activation is upward, or downward.
    pub went_up: bool,
    pub went_down: bool,
}

// What a portfolio is paid for a surplus, and charged for a shortfall.
#[derive(Clone, Copy)]
pub struct PricePair {
    pub surplus: Price,
    pub shortfall: Price,
}

// One price for both.
impl From<Price> for PricePair {
    fn from(price: Price) -> PricePair
        ensures { result ≡ pair_at price }
    {
        PricePair {
            surplus: price,
            shortfall: price,
        }
    }
}

#[derive(Clone, Copy)]
pub struct Prices {
    pub production: PricePair,
    pub consumption_and_trade: PricePair,
}

impl Prices {
    // One pair for both portfolios.
    pub fn pair_for_all(pair: PricePair) -> Prices
        ensures { result ≡ pair_for_all pair }
    {
        Prices {
            production: pair,
            consumption_and_trade: pair,
        }
    }

    // One price for all four.
    pub fn all_at(price: Price) -> Prices
        ensures { result ≡ all_at price }
    {
        Prices::pair_for_all(PricePair::from(price))
    }
}

pub trait Policy {
    // The function that the policy stands for.
    ghost meaning: { Self → Facts → Prices };

    // Answers on any facts, regular or not.
    fn prices(&self, facts: &Facts) -> Prices
        ensures { result ≡ meaning self.now facts.now };

    // What each policy owes on regular facts, and all that its users may lean on.
    ghost rules: { (p : Self) → ShowsRules (meaning p) };
}

// An hour's facts beside the prices that a policy gives it.
#[derive(Clone, Copy)]
pub struct PricedHour {
    pub facts: Facts,
    pub prices: Prices,
}

impl PricedHour {
    pub fn by<P: Policy>(policy: &P, facts: Facts) -> PricedHour
        ensures hour { result ≡ priced_by (P.meaning policy.now) facts }
        ensures bounded { Regular facts → Bounded result.prices }
        ensures ordered { Regular facts → NoSurplusAboveAShortfall result.prices }
        ensures one_way { Regular facts → AroundTheOneWay facts result.prices }
    {
        PricedHour {
            facts,
            prices: policy.prices(&facts),
        }
    }
}
