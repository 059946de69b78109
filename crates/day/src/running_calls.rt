// The calls of a running day alone.
ghost use Rattle.std.specs.Prelude.{◌≡◌};
ghost use Rattle.journal.specs.Journal.{BidAccepted, Withdrawn, Hold, Activated, Special, Finish, special_of, after};
ghost use Rattle.journal.specs.Refused.{bid_refused, withdraw_refused, hold_refused, activate_refused, special_refused};
ghost use Rattle.journal.specs.Lawful.{Lawful};
ghost use Rattle.journal.specs.Made.{Made};
ghost use Rattle.day.specs.View.{running, metered};

use crate::metered::MeteredDay;
use crate::open_day::RunningDay;
use accounts::Accounts;
use ladder::Offer;
use market::{Direction, Minutes};
use refusal::Refusal;
use units::{KilowattHours, Position, Receipt};

impl RunningDay {
    // The offer stands as a bid, under the receipt that is answered.
    pub fn bid(&mut self, offer: Offer) -> Result<Receipt, Refusal>
        ensures { Made (bid_refused (running self.old) offer) (λ receipt. BidAccepted offer receipt.0) result (running self.old) (running self.new) }
    {
        self.book.bid(offer)
    }

    // The bid with that receipt stands no longer.
    pub fn withdraw(&mut self, receipt: Receipt) -> Result<(), Refusal>
        ensures { Made (withdraw_refused (running self.old) receipt.0) (λ _. Withdrawn receipt.0) result (running self.old) (running self.new) }
    {
        self.book.withdraw(receipt)
    }

    // Marks a standing bid as bypassed, or releases it.
    pub fn hold(&mut self, receipt: Receipt, held: bool) -> Result<(), Refusal>
        ensures { Made (hold_refused (running self.old) receipt.0) (λ _. Hold receipt.0 held) result (running self.old) (running self.new) }
    {
        self.book.hold(receipt, held)
    }

    // Activates the first free bid of the hour and direction, whole; answers its receipt and energy.
    pub fn activate(
        &mut self,
        hour: Position,
        direction: Direction,
        minutes: Minutes,
    ) -> Result<(Receipt, KilowattHours), Refusal>
        ensures { Made (activate_refused (running self.old) hour.0 direction minutes.first minutes.last) (λ x. Activated hour direction minutes.first minutes.last x.0.0 x.1.0) result (running self.old) (running self.new) }
    {
        self.book.activate(hour, direction, minutes)
    }

    // An activation on its own terms; answers its energy.
    pub fn special(&mut self, offer: Offer, minutes: Minutes) -> Result<KilowattHours, Refusal>
        ensures { Made (special_refused (running self.old) (special_of offer minutes.first minutes.last)) (λ energy. Special (special_of offer minutes.first minutes.last) energy.0) result (running self.old) (running self.new) }
    {
        self.book.special(offer, minutes)
    }

    // The day is over, and its meters can be read.
    pub fn finish(self) -> MeteredDay
        ensures { Lawful Finish (running self) × (metered result ≡ after Finish (running self)) }
    {
        MeteredDay {
            book: self.book,
            accounts: Accounts::new(),
        }
    }
}
