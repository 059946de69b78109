// What a party trades in the hour, and its imbalances.
ghost use Rattle.std.specs.Prelude.{◌≡◌, ℕ, ◌+◌, ◌*◌, ◌^◌, ◌<◌, ℤ, neg_ℤ};
ghost use Rattle.std.specs.Int.{saturate_to_bits};
ghost use Rattle.units.specs.declared.KilowattHours.{KilowattHours};
ghost use Rattle.market.specs.Figures.{first_outside, outside_parties};
ghost use Rattle.integers.specs.Near.{Near};
ghost use Rattle.integers.specs.Sums.{sum_to};
ghost use Rattle.settlement.specs.Hour.{counted, trade, production_imbalance, consumption_imbalance, imbalance};
ghost use Rattle.billing.specs.declared.book.Metered.{Metered};
ghost use Rattle.billing.specs.Booked.{notice_in, hour_in};
ghost use Rattle.billing.specs.Capped.{Held};

use crate::book::{HourBook, Metered};
use crate::narrow::narrowed;
use market::Portfolio;
use market::figures::{FIRST_OUTSIDE, OUTSIDE_PARTIES};
use units::{KilowattHours, Party};

// The sum of the energies below `count`.
fn sum_to<F: Fn(usize) -> KilowattHours>(count: usize, energy: F) -> i128
    requires { (k : ℕ) → k < count → F.pre energy k }
    ensures value { (f : ℕ → ℤ) → ((k : ℕ) (e : KilowattHours) → F.post energy k e → e.0 ≡ f k) → result ≡ sum_to count f }
    ensures bound { Near (count * 2 ^ 63) result }
{
    let mut total = 0i128;
    for number in 0..count {
        total += i128::from(energy(number).0);
    }
    total
}

impl HourBook<'_> {
    // What counts of its notices with the parties of the area.
    fn trade_inside(&self, party: Party) -> i128
        ensures { result ≡ sum_to self.now.parties (λ q. counted (notice_in self.now party.0 q) (notice_in self.now q party.0)) }
    {
        sum_to(self.parties, |number| {
            let other = Party(number);
            settlement::counted(self.notice(party, other), self.notice(other, party))
        })
    }

    // The outside notices to it, which count alone, negated.
    fn trade_outside(&self, party: Party) -> i128
        ensures value { result ≡ sum_to outside_parties (λ k. neg_ℤ (notice_in self.now (first_outside + k) party.0)) }
        ensures bound { Near (2 ^ 66) result }
    {
        -sum_to(
            OUTSIDE_PARTIES,
            |number| self.notice(Party(FIRST_OUTSIDE + number), party),
        )
    }

    // What the party buys, less what it sells.
    pub fn trade(&self, party: Party) -> KilowattHours
        ensures { (metered : Metered) → Held (trade (hour_in self.now metered) party.0) result.0 }
    {
        let outside = self.trade_outside(party);
        KilowattHours(narrowed(self.trade_inside(party).saturating_add(outside)))
    }

    // Metered production less the plan and the supplement.
    fn production_imbalance(&self, metered: Metered) -> i128
        ensures { result ≡ production_imbalance (hour_in self.now metered) metered.party.0 }
    {
        let supplement = self
            .register
            .supplement(self.position, metered.party, Portfolio::Production);
        i128::from(metered.produced.0) - i128::from(metered.plan.0) - i128::from(supplement.0)
    }

    // The plan less metered consumption, with trade, less the supplement.
    fn consumption_imbalance(&self, metered: Metered) -> i128
        ensures { result ≡ saturate_to_bits 127 (consumption_imbalance (hour_in self.now metered) metered.party.0) }
    {
        let supplement = self.register.supplement(
            self.position,
            metered.party,
            Portfolio::ConsumptionAndTrade,
        );
        let own = i128::from(metered.plan.0) - i128::from(metered.consumed.0);
        let outside = self.trade_outside(metered.party);
        self.trade_inside(metered.party)
            .saturating_add(own + outside - i128::from(supplement.0))
    }

    // What the portfolio came to, less what it should have: above 0 a surplus, below 0 a shortfall.
    pub fn imbalance(&self, portfolio: Portfolio, metered: Metered) -> KilowattHours
        ensures { Held (imbalance (hour_in self.now metered) portfolio metered.party.0) result.0 }
    {
        let wide = match portfolio {
            Portfolio::Production => self.production_imbalance(metered),
            Portfolio::ConsumptionAndTrade => self.consumption_imbalance(metered),
        };
        KilowattHours(narrowed(wide))
    }
}
