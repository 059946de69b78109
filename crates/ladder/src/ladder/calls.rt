// What changes the standing bids.
ghost use Rattle.std.specs.Prelude.{◌≡◌, ◌+◌, is_some, IfSome, IfOk, if◌then◌else◌, Ok, Err};
ghost use Rattle.std.specs.List.{slice_get};
ghost use Rattle.std.specs.Option.{option_map, ok_or};
ghost use Rattle.refusal.specs.declared.Refusal.TheVariants.{NoRoom, NoSuchBid};
ghost use Rattle.market.specs.declared.words.Direction.TheVariants.{Up, Down};
ghost use Rattle.ladder.specs.Sides.{Puts};
ghost use Rattle.ladder.specs.Ladder.{added, bids_of, dropped, first_free, has_space, marked, no_bids, standing_with, taken, view};

use super::Ladder;
use crate::offer::Offer;
use crate::standing;
use market::figures::{MOST_BIDS, MOST_RECEIPTS};
use market::{Bid, Direction};
use ordered::OrderedList;
use refusal::Refusal;
use std::alloc::{AllocError, Global};
use units::{Position, Receipt};

// Puts a bid at its place in the list of its direction, if that list takes it.
fn put(up: &mut OrderedList<Bid>, down: &mut OrderedList<Bid>, bid: Bid)
    ensures up { Puts Up bid up.old up.new }
    ensures down { Puts Down bid down.old down.new }
{
    let _ = match bid.direction {
        Direction::Up => up.put(bid),
        Direction::Down => down.put(bid),
    };
}

impl Ladder {
    // No bids yet. The memory for all is reserved here, so nothing later can want for it.
    pub fn new(heap: Global) -> Result<Ladder, AllocError>
        ensures { IfOk result (λ l. view l ≡ no_bids) }
    {
        let up = OrderedList::new(heap, MOST_BIDS)?;
        let down = OrderedList::new(heap, MOST_BIDS)?;
        Ok(Ladder { up, down, given: 0 })
    }

    // Removes the bid at a place of a direction, and answers it.
    fn take_at(&mut self, direction: Direction, place: usize) -> Option<Bid>
        ensures value { result ≡ slice_get (bids_of direction (view self.old)) place }
        ensures after { view self.new ≡ taken result (view self.old) }
    {
        match direction {
            Direction::Up => self.up.take(place),
            Direction::Down => self.down.take(place),
        }
    }

    // Removes the first bid of the hour in that direction that is not held, and answers it.
    pub fn take_first(&mut self, hour: Position, direction: Direction) -> Option<Bid>
        ensures value { result ≡ first_free hour.0 (bids_of direction (view self.old)) }
        ensures side { IfSome result (λ b. b.direction ≡ direction) }
        ensures after { view self.new ≡ taken result (view self.old) }
    {
        let place = standing::first_free(self.standing(direction), hour)?;
        self.take_at(direction, place)
    }

    // Removes the bid with that receipt, and answers it.
    pub fn withdraw(&mut self, receipt: Receipt) -> Result<Bid, Refusal>
        ensures value { result ≡ ok_or (standing_with receipt.0 (view self.old)) NoSuchBid }
        ensures after { view self.new ≡ (if is_some (standing_with receipt.0 (view self.old)) then dropped receipt.0 (view self.old) else view self.old) }
    {
        let (direction, place) = self.place_of(receipt).ok_or(Refusal::NoSuchBid)?;
        self.take_at(direction, place).ok_or(Refusal::NoSuchBid)
    }

    // Marks the bid with that receipt as held, so that it is not taken, or as free again.
    pub fn hold(&mut self, receipt: Receipt, held: bool) -> Result<(), Refusal>
        ensures value { result ≡ ok_or (option_map (λ _. tt) (standing_with receipt.0 (view self.old))) NoSuchBid }
        ensures after { view self.new ≡ (if is_some (standing_with receipt.0 (view self.old)) then marked receipt.0 held (view self.old) else view self.old) }
    {
        let (direction, place) = self.place_of(receipt).ok_or(Refusal::NoSuchBid)?;
        let changed = Bid {
            held,
            ..self.standing(direction)[place]
        };
        // It takes its own place again, so there is room for it.
        put(&mut self.up, &mut self.down, changed);
        Ok(())
    }

    // The offer stands as a bid from now on, under the receipt that is answered.
    pub fn add(&mut self, offer: Offer) -> Result<Receipt, Refusal>
        ensures value { result ≡ (if has_space (view self.old) then Ok (record { 0 = (view self.old).given + 1 }) else Err NoRoom) }
        ensures after { view self.new ≡ (if has_space (view self.old) then added offer (view self.old) else view self.old) }
    {
        if self.len() >= MOST_BIDS || self.given >= MOST_RECEIPTS {
            return Err(Refusal::NoRoom);
        }
        self.given += 1;
        let receipt = Receipt(self.given);
        let bid = offer.bid(receipt);
        // Each list has space for all the bids that may stand, so there is room for it.
        put(&mut self.up, &mut self.down, bid);
        Ok(receipt)
    }
}
