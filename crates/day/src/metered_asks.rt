// What a metered day answers.
ghost use Rattle.std.specs.Prelude.{◌≡◌};
ghost use Rattle.refusal.specs.Outcome.{Outcome};
ghost use Rattle.timetable.specs.View.{times};
ghost use Rattle.settlement.specs.Hour.{imbalance};
ghost use Rattle.journal.specs.Figures.{times_of, hour_at, facts_at};
ghost use Rattle.journal.specs.Reckoned.{account_at, operator_at};
ghost use Rattle.journal.specs.Refused.{facts_refused, imbalance_refused, account_refused};
ghost use Rattle.day.specs.View.{metered};

use crate::metered::MeteredDay;
use market::Portfolio;
use pricing::{Facts, Prices};
use refusal::Refusal;
use rows::{check_hour, check_imbalance, check_party};
use timetable::Timetable;
use units::{KilowattHours, Mills, Party, Position};

impl MeteredDay {
    // The facts of an hour.
    pub fn facts(&self, hour: Position) -> Result<Facts, Refusal>
        ensures { Outcome (facts_refused (metered self.now) hour.0) result Unit (λ facts. facts ≡ facts_at (metered self.now) hour.0) }
    {
        check_hour(self.book.timetable(), hour)?;
        Ok(self.book.facts(hour))
    }

    // The imbalance of a party's portfolio in an hour.
    pub fn imbalance(
        &self,
        hour: Position,
        party: Party,
        portfolio: Portfolio,
    ) -> Result<KilowattHours, Refusal>
        ensures { Outcome (imbalance_refused (metered self.now) hour.0 party.0) result Unit (λ energy. energy.0 ≡ imbalance (hour_at (metered self.now) hour.0) portfolio party.0) }
    {
        let complete = self.book.has_both(hour, party);
        check_imbalance(self.book.timetable(), hour, party, complete)?;
        Ok(self.book.imbalance(hour, party, portfolio))
    }

    // The account of a party.
    pub fn account(&self, party: Party) -> Result<Mills, Refusal>
        ensures { Outcome (account_refused (metered self.now) party.0) result Unit (λ amount. amount.0 ≡ account_at (metered self.now) party.0) }
    {
        check_party(self.book.timetable(), party)?;
        Ok(self.accounts.amount(party))
    }

    // The operator's account.
    pub fn operator_account(&self) -> Mills
        ensures { result.0 ≡ operator_at (metered self.now) }
    {
        self.accounts.operator()
    }

    // The prices that an hour was settled at; none where it is not settled.
    pub fn prices_of(&self, hour: Position) -> Option<Prices>
        ensures { result ≡ (metered self.now).settled hour.0 }
    {
        self.accounts.prices_of(hour)
    }

    // The day's date, hours and spot prices, its clock, and how many parties are entered.
    pub fn timetable(&self) -> &Timetable
        ensures { times result.now ≡ times_of (metered self.now) }
    {
        self.book.timetable()
    }
}
