// Bids and activations.
ghost use Rattle.std.specs.Prelude.{◌≡◌};
ghost use Rattle.ladder.specs.Ladder.{has_space};
ghost use Rattle.ladder.specs.Ladder as bids;
ghost use Rattle.journal.specs.Journal.{BidAccepted, Withdrawn, Hold, Activated, Special, listed_of, special_of};
ghost use Rattle.journal.specs.Refused.{bid_refused, withdraw_refused, hold_refused, activate_refused, special_refused};
ghost use Rattle.book.specs.View.{Call};

use super::Book;
use ladder::Offer;
use market::figures::{MOST_BIDS, MOST_RECEIPTS};
use market::{Activation, Bid, Direction, Kind, Minutes};
use refusal::Refusal;
use rows::{check_activate, check_bid, check_special, check_withdraw};
use units::{KilowattHours, Position, Receipt};

// The activation of a bid, for these minutes of its hour.
// A bid and an offer have no type of their terms in common: one function for both would copy the terms twice.
fn listed(bid: Bid, hour: Position, minutes: Minutes) -> Activation
    ensures { result ≡ listed_of bid hour minutes.first minutes.last }
{
    Activation {
        hour,
        minutes,
        arrival: 0,
        party: bid.party,
        portfolio: bid.portfolio,
        direction: bid.direction,
        volume: bid.volume,
        price: bid.price,
        kind: Kind::Listed,
    }
}

// A special activation on the terms that are offered.
fn special(offer: Offer, minutes: Minutes) -> Activation
    ensures { result ≡ special_of offer minutes.first minutes.last }
{
    Activation {
        hour: offer.hour,
        minutes,
        arrival: 0,
        party: offer.party,
        portfolio: offer.portfolio,
        direction: offer.direction,
        volume: offer.volume,
        price: offer.price,
        kind: Kind::Special,
    }
}

impl Book {
    // Whether there is room for one more bid, and a receipt for it.
    fn has_room_for_a_bid(&self) -> bool
        ensures { result ≡ has_space (bids.view self.now.ladder) }
    {
        self.ladder.len() < MOST_BIDS && self.ladder.given() < MOST_RECEIPTS
    }

    // The offer stands as a bid, under the receipt that is answered.
    pub fn bid(&mut self, offer: Offer) -> Result<Receipt, Refusal>
        ensures { Call (λ f. bid_refused f offer) (λ receipt. BidAccepted offer receipt.0) result self.old self.new }
    {
        let room = self.has_room_for_a_bid();
        check_bid(&self.timetable, &offer, room)?;
        self.ladder.add(offer)
    }

    // The bid with that receipt stands no longer.
    pub fn withdraw(&mut self, receipt: Receipt) -> Result<(), Refusal>
        ensures { Call (λ f. withdraw_refused f receipt.0) (λ _. Withdrawn receipt.0) result self.old self.new }
    {
        let standing = self.ladder.find(receipt);
        check_withdraw(&self.timetable, standing)?;
        // It stands, so it can be taken out.
        self.ladder.withdraw(receipt)?;
        Ok(())
    }

    // Marks a standing bid as bypassed, or releases it.
    pub fn hold(&mut self, receipt: Receipt, held: bool) -> Result<(), Refusal>
        ensures { Call (λ f. hold_refused f receipt.0) (λ _. Hold receipt.0 held) result self.old self.new }
    {
        self.ladder.hold(receipt, held)
    }

    // Activates the first free bid of the hour and direction, whole; answers its receipt and energy.
    pub fn activate(
        &mut self,
        hour: Position,
        direction: Direction,
        minutes: Minutes,
    ) -> Result<(Receipt, KilowattHours), Refusal>
        ensures { Call (λ f. activate_refused f hour.0 direction minutes.first minutes.last) (λ x. Activated hour direction minutes.first minutes.last x.0.0 x.1.0) result self.old self.new }
    {
        let room = self.register.has_room();
        let found = self.ladder.first_free(hour, direction).is_some();
        check_activate(&self.timetable, hour, minutes, room, found)?;
        let bid = self
            .ladder
            .take_first(hour, direction)
            .ok_or(Refusal::NoSuchBid)?;
        let activation = listed(bid, hour, minutes);
        // There is room for it.
        self.register.enter(activation)?;
        Ok((bid.receipt, activation.energy()))
    }

    // An activation on its own terms; answers its energy.
    pub fn special(&mut self, offer: Offer, minutes: Minutes) -> Result<KilowattHours, Refusal>
        ensures { Call (λ f. special_refused f (special_of offer minutes.first minutes.last)) (λ energy. Special (special_of offer minutes.first minutes.last) energy.0) result self.old self.new }
    {
        let activation = special(offer, minutes);
        let room = self.register.has_room();
        check_special(&self.timetable, &activation, room)?;
        // There is room for it.
        self.register.enter(activation)?;
        Ok(activation.energy())
    }
}
