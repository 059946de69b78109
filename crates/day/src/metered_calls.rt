// The calls of a metered day.
ghost use Rattle.std.specs.Prelude.{◌≡◌};
ghost use Rattle.journal.specs.Journal.{Reading, Settled};
ghost use Rattle.journal.specs.Refused.{is_settled, reading_refused, settle_refused};
ghost use Rattle.journal.specs.Made.{Made};
ghost use Rattle.day.specs.View.{metered};

use crate::metered::MeteredDay;
use positions::Meter;
use pricing::{Policy, PricedHour};
use refusal::Refusal;
use rows::check_settle;
use units::{KilowattHours, Party, Position};

impl MeteredDay {
    fn is_settled(&self, hour: Position) -> bool
        ensures { result ≡ is_settled (metered self.now) hour.0 }
    {
        self.accounts.prices_of(hour).is_some()
    }

    // A reading of a party's meter in an hour; it replaces the earlier one.
    pub fn read(
        &mut self,
        hour: Position,
        party: Party,
        meter: Meter,
        energy: KilowattHours,
    ) -> Result<(), Refusal>
        ensures { Made (reading_refused (metered self.old) hour.0 party.0 energy.0) (λ _. Reading hour.0 party.0 meter energy.0) result (metered self.old) (metered self.new) }
    {
        let settled = self.is_settled(hour);
        self.book.read(hour, party, meter, energy, settled)
    }

    // Settles an hour under a policy, once: each surplus and shortfall is priced alone, and the operator has the counter-entry.
    pub fn settle<P: Policy>(&mut self, hour: Position, policy: &P) -> Result<(), Refusal>
        ensures { Made (settle_refused (metered self.old) hour.0) (λ _. Settled hour.0 (P.meaning policy.now)) result (metered self.old) (metered self.new) }
    {
        let settled = self.is_settled(hour);
        let complete = self.book.is_complete(hour);
        check_settle(self.book.timetable(), hour, settled, complete)?;
        let priced = PricedHour::by(policy, self.book.facts(hour));
        self.book.bill(&mut self.accounts, hour, &priced);
        self.accounts.settle(hour, priced.prices);
        Ok(())
    }
}
