// The balance delta of an hour's minutes.
ghost use Rattle.std.specs.Prelude.{◌≡◌, ◌^◌, ◌<◌, pos, ◌-ℤ◌, Decides};
ghost use Rattle.register.specs.Totals.{Few};
ghost use Rattle.market.specs.declared.words.Direction.TheVariants.{Up, Down};
ghost use Rattle.facts.specs.Minutes.{power_of, delta, rose, fell, Rose, Fell};

use crate::listed::HourActivations;
use market::figures::MINUTES_IN_HOUR;
use market::{Activation, Direction};

impl HourActivations<'_> {
    // What the activation adds to the delta of the minute: its power, less than 0 where it is downward.
    fn swing(&self, activation: &Activation, minute: u8) -> i64
        ensures value { result ≡ pos (power_of self.now.hour Up minute activation.now) -ℤ pos (power_of self.now.hour Down minute activation.now) }
        ensures bound { (power_of self.now.hour Up minute activation.now < 2 ^ 32) × (power_of self.now.hour Down minute activation.now < 2 ^ 32) }
    {
        let power = i64::from(activation.volume.0);
        if !activation.minutes.contains(minute) {
            return 0;
        }
        if self.is_listed(activation, Direction::Up) {
            return power;
        }
        if self.is_listed(activation, Direction::Down) {
            return -power;
        }
        0
    }

    // The balance delta of the minute, exact for all but slices beyond any day's length.
    pub fn delta(&self, minute: u8) -> i64
        ensures { Few self.now.activations.now → result ≡ delta self.now.hour self.now.activations.now minute }
    {
        self.activations.iter().fold(0i64, |sum, activation| {
            sum.saturating_add(self.swing(activation, minute))
        })
    }

    // Whether the delta of some minute is above, and of some below, that of the minute before.
    pub fn rose_and_fell(&self) -> (bool, bool)
        ensures value { Few self.now.activations.now → result ≡ (rose self.now.hour self.now.activations.now, fell self.now.hour self.now.activations.now) }
        ensures reading { Few self.now.activations.now → Decides result.0 (Rose self.now.hour self.now.activations.now) × Decides result.1 (Fell self.now.hour self.now.activations.now) }
    {
        let mut rose = false;
        let mut fell = false;
        let mut before = self.delta(0);
        // A `for`, since each minute is compared with the one before.
        for minute in 1..MINUTES_IN_HOUR {
            let here = self.delta(minute);
            rose |= before < here;
            fell |= here < before;
            before = here;
        }
        (rose, fell)
    }
}
