// The standing bids of each direction, by hour, price and receipt: upward the lowest price first, downward the highest.
#![tactic(auto)]

mod ladder;
mod offer;
pub mod standing;

pub use ladder::Ladder;
pub use offer::Offer;
