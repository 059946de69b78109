// What the settlements of a day have booked: an account for each party, the operator's, and the prices of each settled hour.
#![tactic(auto)]

ghost use Rattle.std.specs.Prelude.{◌≡◌};
ghost use Rattle.accounts.specs.Booked.{amounts_of, operator_of, settled_of, Opened};

use market::figures::{MOST_HOURS, MOST_PARTIES};
use pricing::Prices;
use units::{Mills, Party, Position};

mod booking;

#[derive(Drop)]
pub struct Accounts {
    parties: [Mills; MOST_PARTIES],
    operator: Mills,
    settled: [Option<Prices>; MOST_HOURS],
}

impl Accounts {
    // Nothing booked and no hour settled.
    pub fn new() -> Accounts
        ensures { Opened result }
    {
        Accounts {
            parties: [Mills(0); MOST_PARTIES],
            operator: Mills(0),
            settled: [None; MOST_HOURS],
        }
    }

    // The party's account; nothing past the last party.
    pub fn amount(&self, party: Party) -> Mills
        ensures { result.0 ≡ amounts_of self.now party.0 }
    {
        self.parties.get(party.0).copied().unwrap_or_default()
    }

    pub fn operator(&self) -> Mills
        ensures { result.0 ≡ operator_of self.now }
    {
        self.operator
    }

    // The prices that the hour was settled at; none where it is not settled.
    pub fn prices_of(&self, hour: Position) -> Option<Prices>
        ensures { result ≡ settled_of self.now hour.0 }
    {
        self.settled.get(hour.0).copied().flatten()
    }
}
