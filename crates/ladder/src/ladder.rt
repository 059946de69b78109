// The standing bids of both directions.
ghost use Rattle.std.specs.Prelude.{◌≡◌, ◌+◌, ◌≤◌, length};
ghost use Rattle.ordered.specs.Listed.{items, space_of};
ghost use Rattle.market.specs.Figures.{most_bids, most_receipts};
ghost use Rattle.market.specs.declared.words.Direction.TheVariants.{Up, Down};
ghost use Rattle.ladder.specs.Sides.{Fresh, Once, Side};

use market::Bid;
use ordered::OrderedList;

mod calls;
mod reads;

#[derive(Drop)]
pub struct Ladder {
    up: OrderedList<Bid>,
    down: OrderedList<Bid>,
    // How many receipts were given, which is the last of them.
    given: u32,
    ghost upward: { Side Up (items up) },
    ghost downward: { Side Down (items down) },
    ghost space: { (space_of up ≡ most_bids) × (space_of down ≡ most_bids) },
    ghost room: { (length (items up) + length (items down) ≤ most_bids) × (given ≤ most_receipts) },
    ghost once: { Once (items up) (items down) },
    ghost fresh: { Fresh given (items up) (items down) },
}
