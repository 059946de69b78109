// What is asked of the standing bids.
ghost use Rattle.std.specs.Prelude.{◌≡◌, ◌<◌, ◌≤◌, length, IfSome, slice_index_or};
ghost use Rattle.market.specs.Figures.{most_bids, most_receipts};
ghost use Rattle.market.specs.Words.{no_bid};
ghost use Rattle.ladder.specs.Ladder.{bid_at, bids_of, first_free, standing_count, standing_with, view};
ghost use Rattle.ladder.specs.Sides.{Fresh, Once, Side};
ghost use Rattle.ladder.specs.Standing.{Extreme, FirstBid, Free, NoHigher, NoLower};

use super::Ladder;
use crate::standing;
use market::{Bid, Direction};
use units::{Position, Price, Receipt};

impl Ladder {
    // The bids of a direction, first to last. No receipt stands twice, in either direction.
    pub fn standing(&self, direction: Direction) -> &[Bid]
        ensures value { result.now ≡ bids_of direction (view self.now) }
        ensures side { Side direction (bids_of direction (view self.now)) }
        ensures once { Once (view self.now).up (view self.now).down }
    {
        match direction {
            Direction::Up => self.up.as_slice(),
            Direction::Down => self.down.as_slice(),
        }
    }

    // How many bids stand, of both directions, held ones too.
    pub fn len(&self) -> usize
        ensures value { result ≡ standing_count (view self.now) }
        ensures bound { result ≤ most_bids }
    {
        self.up.len() + self.down.len()
    }

    // How many receipts were given; none above stands.
    pub fn given(&self) -> u32
        ensures value { result ≡ (view self.now).given }
        ensures bound { result ≤ most_receipts }
        ensures fresh { Fresh result (view self.now).up (view self.now).down }
    {
        self.given
    }

    // Where the bid with that receipt stands: in which direction, and at which place.
    pub(super) fn place_of(&self, receipt: Receipt) -> Option<(Direction, usize)>
        ensures value { bid_at (view self.now) result ≡ standing_with receipt.0 (view self.now) }
        ensures within { IfSome result (λ p. (p.1 < length (bids_of p.0 (view self.now))) × ((slice_index_or (bids_of p.0 (view self.now)) p.1 no_bid).receipt ≡ receipt)) }
    {
        standing::find_receipt(self.up.as_slice(), receipt)
            .map(|place| (Direction::Up, place))
            .or_else(|| {
                standing::find_receipt(self.down.as_slice(), receipt).map(|place| (
                    Direction::Down,
                    place,
                ))
            })
    }

    // The bid that stands with that receipt.
    pub fn find(&self, receipt: Receipt) -> Option<Bid>
        ensures { result ≡ standing_with receipt.0 (view self.now) }
    {
        let (direction, place) = self.place_of(receipt)?;
        Some(self.standing(direction)[place])
    }

    // The first bid of the hour in that direction that is not held.
    pub fn first_free(&self, hour: Position, direction: Direction) -> Option<Bid>
        ensures value { result ≡ first_free hour.0 (bids_of direction (view self.now)) }
        ensures first { FirstBid (Free hour) (bids_of direction (view self.now)) result }
        ensures side { IfSome result (λ b. b.direction ≡ direction) }
    {
        let bids = self.standing(direction);
        let place = standing::first_free(bids, hour)?;
        Some(bids[place])
    }

    // The lowest upward price of the hour, held bids included.
    pub fn lowest_up(&self, hour: Position) -> Option<Price>
        ensures { Extreme NoLower hour (view self.now).up result }
    {
        standing::lowest_price(self.up.as_slice(), hour)
    }

    // The highest downward price of the hour, held bids included.
    pub fn highest_down(&self, hour: Position) -> Option<Price>
        ensures { Extreme NoHigher hour (view self.now).down result }
    {
        standing::highest_price(self.down.as_slice(), hour)
    }
}
