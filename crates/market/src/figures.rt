// Every figure of the rules, in one place. specs/Figures.antt states them apart from the code, so that a wrong one is refused.
ghost use Rattle.std.specs.Prelude.{◌≡◌, pos};
ghost use Rattle.market.specs.Figures.{least_bid_volume, greatest_bid_volume, least_special_volume, greatest_special_volume};
ghost use Rattle.market.specs.Figures.{price_limit, plan_limit, reading_limit, notice_limit};
ghost use Rattle.market.specs.Figures.{minutes_in_hour, price_setting_minutes, gate_minutes, opening_lead_minutes, latest_clock, most_hours};
ghost use Rattle.market.specs.Figures.{most_parties, first_outside, outside_parties, most_notices, most_bids, most_receipts, most_activations};

// The power of a bid, and of a special activation, in kilowatts.
pub const LEAST_BID_VOLUME: u32 = 5_000;

pub const GREATEST_BID_VOLUME: u32 = 50_000;

pub const LEAST_SPECIAL_VOLUME: u32 = 1;

pub const GREATEST_SPECIAL_VOLUME: u32 = 50_000;

// How far a price may lie from zero, either way, in cents per megawatt-hour.
pub const PRICE_LIMIT: i32 = 1_000_000;

// The energy of a plan, of a meter reading and of a notice, for one hour, in kilowatt-hours.
pub const PLAN_LIMIT: i64 = 5_000_000;

pub const READING_LIMIT: i64 = 5_000_000;

pub const NOTICE_LIMIT: i64 = 1_000_000;

// An activation ends at this minute of its hour at the latest.
pub const MINUTES_IN_HOUR: u8 = 60;

// How long an activation lasts to set a price.
pub const PRICE_SETTING_MINUTES: u8 = 10;

// How long before its hour a plan, a notice, a bid or a withdrawal is due.
pub const GATE_MINUTES: u32 = 45;

// How long before the day's start the clock stands when a day is opened, and the latest instant it may be set to.
pub const OPENING_LEAD_MINUTES: u32 = 2_880;

pub const LATEST_CLOCK: u32 = 60_000_000;

// The longest day has so many hours.
pub const MOST_HOURS: usize = 25;

// Parties are numbered from 0 as they are entered, the counterparties outside the area from FIRST_OUTSIDE.
pub const MOST_PARTIES: usize = 32;

pub const FIRST_OUTSIDE: usize = 32;

pub const OUTSIDE_PARTIES: usize = 8;

// How many notices, standing bids, receipts and activations there is room for.
pub const MOST_NOTICES: usize = 1_024;

pub const MOST_BIDS: usize = 512;

pub const MOST_RECEIPTS: u32 = 100_000;

pub const MOST_ACTIVATIONS: usize = 512;

// The constants are the figures that contracts speak of.
pub fn agree()
    ensures power { (LEAST_BID_VOLUME ≡ least_bid_volume) × (GREATEST_BID_VOLUME ≡ greatest_bid_volume) × (LEAST_SPECIAL_VOLUME ≡ least_special_volume) × (GREATEST_SPECIAL_VOLUME ≡ greatest_special_volume) }
    ensures price { PRICE_LIMIT ≡ pos price_limit }
    ensures energy { (PLAN_LIMIT ≡ pos plan_limit) × (READING_LIMIT ≡ pos reading_limit) × (NOTICE_LIMIT ≡ pos notice_limit) }
    ensures minutes { (MINUTES_IN_HOUR ≡ minutes_in_hour) × (PRICE_SETTING_MINUTES ≡ price_setting_minutes) × (GATE_MINUTES ≡ gate_minutes) }
    ensures clock { (OPENING_LEAD_MINUTES ≡ opening_lead_minutes) × (LATEST_CLOCK ≡ latest_clock) }
    ensures hours { MOST_HOURS ≡ most_hours }
    ensures parties { (MOST_PARTIES ≡ most_parties) × (FIRST_OUTSIDE ≡ first_outside) × (OUTSIDE_PARTIES ≡ outside_parties) }
    ensures room { (MOST_NOTICES ≡ most_notices) × (MOST_BIDS ≡ most_bids) × (MOST_RECEIPTS ≡ most_receipts) × (MOST_ACTIVATIONS ≡ most_activations) }
{}
