// The policies at hand: the Nordic one, the Dutch one, and either of any two.
ghost use Rattle.std.specs.Prelude.{◌≡◌};
ghost use Rattle.pricing.specs.Policies.{Regular};
ghost use Rattle.pricing.specs.Mirror.{mirrored, exchanged};
ghost use Rattle.pricing.specs.Nordic.{nordic_prices, OnePriceAndTwo, SameSide};
ghost use Rattle.pricing.specs.Dutch.{dutch_prices, OnePair};
ghost use Rattle.pricing.specs.Either.{meaning_held};
ghost use Rattle.pricing.specs.NordicRules.{nordic_rules};
ghost use Rattle.pricing.specs.DutchRules.{dutch_rules};
ghost use Rattle.std.proofs.Common.{rules};

use crate::{Facts, Policy, PricePair, Prices};
use std::cmp::Ordering;
use units::KilowattHours;

// Consumption and trade have the price of the net energy's side. Production has it for an imbalance that added to the
// need on that side; one that eased it is settled at spot.
#[derive(Clone, Copy)]
pub struct Nordic;

impl Policy for Nordic {
    ghost meaning = { λ _. nordic_prices };

    ghost rules = { λ p. nordic_rules };

    fn prices(&self, facts: &Facts) -> Prices
        ensures meaning { result ≡ nordic_prices facts.now }
        ensures portfolios { Regular facts.now → OnePriceAndTwo facts.now result }
        ensures side { (g : Facts) → SameSide facts.now g → result ≡ nordic_prices g }
        ensures mirror { nordic_prices (mirrored facts.now) ≡ exchanged result }
    {
        let Facts {
            spot,
            up_price: up,
            down_price: down,
            net_energy,
            ..
        } = *facts;
        match net_energy.cmp(&KilowattHours(0)) {
            Ordering::Greater => Prices {
                production: PricePair {
                    surplus: spot,
                    shortfall: up,
                },
                consumption_and_trade: PricePair::from(up),
            },
            Ordering::Less => Prices {
                production: PricePair {
                    surplus: down,
                    shortfall: spot,
                },
                consumption_and_trade: PricePair::from(down),
            },
            Ordering::Equal => Prices::all_at(spot),
        }
    }
}

// The listed directions set one pair of prices for both portfolios. Where both are listed, the course of the balance
// delta tells which of them prevails, if any.
#[derive(Clone, Copy)]
pub struct Dutch;

impl Policy for Dutch {
    ghost meaning = { λ _. dutch_prices };

    ghost rules = { λ p. dutch_rules };

    fn prices(&self, facts: &Facts) -> Prices
        ensures meaning { result ≡ dutch_prices facts.now }
        ensures portfolios { OnePair facts.now result }
        ensures mirror { dutch_prices (mirrored facts.now) ≡ exchanged result }
    {
        match (facts.went_up, facts.went_down, facts.rose, facts.fell) {
            (false, false, _, _) => Prices::all_at(facts.middle),
            (true, false, _, _) | (true, true, true, false) => Prices::all_at(facts.up_price),
            (false, true, _, _) | (true, true, false, true) => Prices::all_at(facts.down_price),
            _ => Prices::pair_for_all(PricePair {
                surplus: facts.down_price,
                shortfall: facts.up_price,
            }),
        }
    }
}

// One of two policies, chosen while the program runs.
// It owns what it holds: a `dyn Policy` would need a heap or a lifetime, and would be no plainer.
#[derive(Drop)]
pub enum Either<P, Q> {
    First(P),
    Second(Q),
}

impl<P: Policy, Q: Policy> Policy for Either<P, Q> {
    ghost meaning = { meaning_held P.Policy.meaning Q.Policy.meaning };

    ghost rules = { Prim.search rules };

    fn prices(&self, facts: &Facts) -> Prices {
        match self {
            Either::First(policy) => policy.prices(facts),
            Either::Second(policy) => policy.prices(facts),
        }
    }
}
