// The measures and the numbers of the trade, wrapped apart so that they cannot be mixed up.
#![tactic(auto)]

// Power in whole kilowatts.
#[derive(Clone, Copy, PartialEq, Eq, PartialOrd, Ord, Default, Debug)]
pub struct Kilowatts(pub u32);

// Energy in whole kilowatt-hours; negative where it goes the other way.
#[derive(Clone, Copy, PartialEq, Eq, PartialOrd, Ord, Default, Debug)]
pub struct KilowattHours(pub i64);

// A price in whole euro cents per megawatt-hour; it may be negative.
#[derive(Clone, Copy, PartialEq, Eq, PartialOrd, Ord, Default, Debug)]
pub struct Price(pub i32);

// Money in mills, thousandths of a cent: kilowatt-hours times price.
#[derive(Clone, Copy, PartialEq, Eq, PartialOrd, Ord, Default, Debug)]
pub struct Mills(pub i64);

// An hour of the local day, counted from 0 in order of time.
#[derive(Clone, Copy, PartialEq, Eq, PartialOrd, Ord, Default, Debug)]
pub struct Position(pub usize);

// A balance responsible party, by the number that entering it returned, or a counterparty outside the area.
#[derive(Clone, Copy, PartialEq, Eq, PartialOrd, Ord, Default, Debug)]
pub struct Party(pub usize);

// The receipt of an accepted bid: 1, 2, 3 and on.
#[derive(Clone, Copy, PartialEq, Eq, PartialOrd, Ord, Default, Debug)]
pub struct Receipt(pub u32);
