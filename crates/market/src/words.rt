// Bids and activations, and the words that describe them.
ghost use Rattle.std.specs.Prelude.{◌≡◌, ◌^◌, ◌<◌, pos};
ghost use Rattle.market.specs.Words.{count_of, is_among, minutes_of, energy_of};

use crate::rounding;
use units::{KilowattHours, Kilowatts, Party, Position, Price, Receipt};

#[derive(Clone, Copy, PartialEq, Eq, Debug)]
pub enum Portfolio {
    Production,
    ConsumptionAndTrade,
}

#[derive(Clone, Copy, PartialEq, Eq, PartialOrd, Ord, Debug)]
pub enum Direction {
    Up,
    Down,
}

// Listed: made from a standing bid. Special: brings its own terms.
#[derive(Clone, Copy, PartialEq, Eq, Debug)]
pub enum Kind {
    Listed,
    Special,
}

#[derive(Clone, Copy, PartialEq, Eq, Debug)]
pub struct Bid {
    pub hour: Position,
    pub receipt: Receipt,
    pub party: Party,
    pub portfolio: Portfolio,
    pub direction: Direction,
    pub volume: Kilowatts,
    pub price: Price,
    pub held: bool,
}

// The minutes of an hour that an activation lasts for: from the first on, up to the last, which is no more of it.
#[derive(Clone, Copy, PartialEq, Eq, Debug)]
pub struct Minutes {
    pub first: u8,
    pub last: u8,
}

impl Minutes {
    // How many they are; none where the last is not above the first.
    pub fn count(self) -> u8
        ensures { result ≡ count_of self }
    {
        self.last.saturating_sub(self.first)
    }

    pub fn contains(self, minute: u8) -> bool
        ensures { result ≡ is_among minute self }
    {
        (self.first..self.last).contains(&minute)
    }
}

#[derive(Clone, Copy, PartialEq, Eq, Debug)]
pub struct Activation {
    pub hour: Position,
    pub minutes: Minutes,
    pub arrival: u32,
    pub party: Party,
    pub portfolio: Portfolio,
    pub direction: Direction,
    pub volume: Kilowatts,
    pub price: Price,
    pub kind: Kind,
}

impl Activation {
    // How long it lasts.
    pub fn minutes(&self) -> u8
        ensures { result ≡ minutes_of self.now }
    {
        self.minutes.count()
    }

    // Its energy, rounded alone, before any summing.
    pub fn energy(&self) -> KilowattHours
        ensures value { result.0 ≡ pos (energy_of self.now) }
        ensures bound { energy_of self.now < 2 ^ 35 }
    {
        rounding::energy(self.volume, self.minutes())
    }
}
