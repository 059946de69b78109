// Energy from power and time, with its one rounding.
ghost use Rattle.std.specs.Prelude.{◌≡◌, ◌^◌, ◌<◌, [], ◌∷◌, map, pos};
ghost use Rattle.market.specs.Energy.{energy, Lawful};

use crate::figures::MINUTES_IN_HOUR;
use units::{KilowattHours, Kilowatts};

const HOUR: i64 = MINUTES_IN_HOUR as i64;

// Rounded to the nearest kilowatt-hour, a half upward.
pub fn energy(power: Kilowatts, minutes: u8) -> KilowattHours
    ensures value { result.0 ≡ pos (energy power.0 minutes) }
    ensures bound { energy power.0 minutes < 2 ^ 35 }
    ensures lawful { Lawful power.0 minutes (energy power.0 minutes) }
{
    let worked = i64::from(power.0) * i64::from(minutes);
    KilowattHours((worked + HOUR / 2) / HOUR)
}

// Of 83.5, 84.5, 83 1/3 and 5,000 kilowatt-hours.
pub fn worked_cases() -> [KilowattHours; 4]
    ensures { map (λ e. e.0) result ≡ pos 84 ∷ pos 85 ∷ pos 83 ∷ pos 5_000 ∷ [] }
{
    [
        energy(Kilowatts(5_010), 1),
        energy(Kilowatts(5_070), 1),
        energy(Kilowatts(5_000), 1),
        energy(Kilowatts(5_000), 60),
    ]
}
