// The listed activations of an hour.
ghost use Rattle.std.specs.Prelude.{◌≡◌, length, Decides};
ghost use Rattle.register.specs.Totals.{listed_energy, Supplement};
ghost use Rattle.market.specs.declared.words.Direction.TheVariants.{Up, Down};
ghost use Rattle.facts.specs.Listed.{listed_in, went, SomeOf};

use market::{Activation, Direction, Kind};
use register::totals::listed_totals;
use units::{KilowattHours, Position};

// The activations of a day, seen from one hour.
#[derive(Clone, Copy)]
pub struct HourActivations<'a> {
    pub hour: Position,
    pub activations: &'a [Activation],
}

impl HourActivations<'_> {
    // Whether the activation is listed, of the hour, and of that direction.
    pub fn is_listed(&self, activation: &Activation, direction: Direction) -> bool
        ensures { result ≡ listed_in self.now.hour direction activation.now }
    {
        activation.hour == self.hour
            && activation.kind == Kind::Listed
            && activation.direction == direction
    }

    // Whether some listed activation of the hour has that direction.
    pub fn went(&self, direction: Direction) -> bool
        ensures value { result ≡ went self.now.hour direction self.now.activations.now }
        ensures reading { Decides result (SomeOf (listed_in self.now.hour direction) self.now.activations.now (length self.now.activations.now)) }
    {
        self.activations
            .iter()
            .any(|activation| self.is_listed(activation, direction))
    }

    // Listed upward less listed downward energy of the hour, short activations included.
    pub fn net_energy(&self) -> KilowattHours
        ensures { Supplement self.now.activations.now (listed_energy self.now.hour Up self.now.activations.now) (listed_energy self.now.hour Down self.now.activations.now) result.0 }
    {
        let (up, down) = listed_totals(self.activations, self.hour);
        KilowattHours(up.0 - down.0)
    }
}
