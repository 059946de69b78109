// What a settlement books.
ghost use Rattle.std.specs.Prelude.{◌≡◌};
ghost use Rattle.accounts.specs.Booked.{settled_of};
ghost use Rattle.market.specs.Figures.{price_setting_minutes};
ghost use Rattle.timetable.specs.View.{times};
ghost use Rattle.settlement.specs.Bounds.{PricesFit};
ghost use Rattle.settlement.specs.Payments.{due_to};
ghost use Rattle.journal.specs.Figures.{hour_at};
ghost use Rattle.book.specs.View.{InEveryView};
ghost use Rattle.book.specs.Bills.{Roomy, Billed};

use super::Book;
use accounts::Accounts;
use billing::Terms;
use market::figures::PRICE_SETTING_MINUTES;
use pricing::{PricedHour, Prices};
use units::{Mills, Party, Position};

impl Book {
    // What is due to a party in an hour, on these terms and at these prices.
    fn due(&self, hour: Position, party: Party, terms: &Terms, prices: &Prices) -> Mills
        ensures { PricesFit terms.now.facts prices.now → InEveryView self.now (λ f. result.0 ≡ due_to terms.now.minutes terms.now.facts prices.now (hour_at f hour.0) party.0) }
    {
        self.hour_book(hour)
            .due(terms, prices, self.metered(hour, party))
    }

    // Books for every party what is due to it in the hour, and the counter-entry for the operator.
    pub fn bill(&self, accounts: &mut Accounts, hour: Position, priced: &PricedHour)
        ensures settled { settled_of accounts.new ≡ settled_of accounts.old }
        ensures billed { PricesFit priced.now.facts priced.now.prices → Roomy accounts.old → InEveryView self.now (λ f. Billed (times self.now.timetable).parties (due_to price_setting_minutes priced.now.facts priced.now.prices (hour_at f hour.0)) accounts.old accounts.new) }
    {
        let terms = Terms {
            minutes: PRICE_SETTING_MINUTES,
            facts: priced.facts,
        };
        for number in 0..self.timetable.parties() {
            let party = Party(number);
            let due = self.due(hour, party, &terms, &priced.prices);
            accounts.book(party, due);
        }
    }
}
