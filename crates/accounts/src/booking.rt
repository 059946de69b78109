// What a settlement writes into the accounts.
ghost use Rattle.accounts.specs.Booked.{Booked, BookedExactly, Settled};

use crate::Accounts;
use pricing::Prices;
use units::{Mills, Party, Position};

impl Accounts {
    // Adds the amount to the party's account and takes it from the operator's; nothing past the last party.
    pub fn book(&mut self, party: Party, amount: Mills)
        ensures booked { Booked party.0 amount.0 self.old self.new }
        ensures exactly { BookedExactly party.0 amount.0 self.old self.new }
    {
        if let Some(Mills(held)) = self.parties.get(party.0).copied() {
            self.parties[party.0] = Mills(held.saturating_add(amount.0));
            self.operator = Mills(self.operator.0.saturating_sub(amount.0));
        }
    }

    // Marks the hour as settled at these prices; nothing past the last hour.
    pub fn settle(&mut self, hour: Position, prices: Prices)
        ensures { Settled hour.0 prices self.old self.new }
    {
        // A test and an index: of what `get_mut` leaves in an array only the length is known.
        if hour.0 < self.settled.len() {
            self.settled[hour.0] = Some(prices);
        }
    }
}
