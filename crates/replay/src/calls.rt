// The calls of each stage, and the answers of those that are accepted. A script is data, of which the law of a run speaks:
// so these are enums, and no closures.
use calendar::Instant;
use ladder::Offer;
use market::{Direction, Minutes};
use notices::Notice;
use positions::Meter;
use units::{KilowattHours, Party, Position, Receipt};

#[derive(Clone, Copy)]
pub enum PlannedCall {
    Enter,
    Plan(Position, Party, KilowattHours),
    Notice(Notice),
    Clock(Instant),
}

// Its first three are calls of a planned day too: an enum of their own inside both would only lengthen each script.
#[derive(Clone, Copy)]
pub enum RunningCall {
    Plan(Position, Party, KilowattHours),
    Notice(Notice),
    Clock(Instant),
    Bid(Offer),
    Withdraw(Receipt),
    // Whether the bid is held from now on, or released.
    Hold(Receipt, bool),
    Activate(Position, Direction, Minutes),
    Special(Offer, Minutes),
}

// Each hour may be settled under a policy of its own.
#[derive(Drop)]
pub enum MeteredCall<P> {
    Read(Position, Party, Meter, KilowattHours),
    Settle(Position, P),
}

#[derive(Clone, Copy)]
pub enum Answer {
    Done,
    Entered(Party),
    Accepted(Receipt),
    Activated(Receipt, KilowattHours),
    Energy(KilowattHours),
}
