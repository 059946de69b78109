// What a register does.
ghost use Rattle.std.specs.Prelude.{◌≡◌, ◌≤◌, [], length, pos, ◌-ℤ◌, IfOk, nat_lt};
ghost use Rattle.refusal.specs.Outcome.{Outcome};
ghost use Rattle.market.specs.Figures.{most_activations};
ghost use Rattle.market.specs.declared.words.Direction.TheVariants.{Up, Down};
ghost use Rattle.register.specs.Registered.{registered, with_activation, register_row};
ghost use Rattle.register.specs.Totals.{listed_energy, account_energy};

use crate::register::Register;
use crate::totals;
use market::figures::MOST_ACTIVATIONS;
use market::{Activation, Portfolio};
use ordered::OrderedList;
use refusal::Refusal;
use std::alloc::{AllocError, Global};
use units::{KilowattHours, Party, Position};

impl Register {
    // An empty register. Its memory is reserved here, so nothing later can want for it.
    pub fn new(heap: Global) -> Result<Register, AllocError>
        ensures { IfOk result (λ register. registered register ≡ []) }
    {
        let activations = OrderedList::new(heap, MOST_ACTIVATIONS)?;
        Ok(Register { activations })
    }

    // The activations, first to last.
    pub fn as_slice(&self) -> &[Activation]
        ensures value { result.now ≡ registered self.now }
        ensures bound { length result.now ≤ most_activations }
    {
        self.activations.as_slice()
    }

    // Whether there is room for one more.
    pub fn has_room(&self) -> bool
        ensures { result ≡ nat_lt (length (registered self.now)) most_activations }
    {
        self.activations.len() < MOST_ACTIVATIONS
    }

    // Puts an activation at its place, under its number of arrival, whatever number it came with.
    pub fn enter(&mut self, activation: Activation) -> Result<(), Refusal>
        ensures { Outcome (register_row (registered self.old)) result (registered self.new ≡ registered self.old) (λ _. registered self.new ≡ with_activation activation (registered self.old)) }
    {
        let arrival = self.activations.len();
        if arrival >= MOST_ACTIVATIONS {
            return Err(Refusal::NoRoom);
        }
        let numbered = Activation {
            arrival: arrival as u32,
            ..activation
        };
        // No held one has this number, so there is room and nothing is replaced.
        let _ = self.activations.put(numbered);
        Ok(())
    }

    // The upward and the downward energy of the hour's listed activations.
    pub fn listed_totals(&self, hour: Position) -> (KilowattHours, KilowattHours)
        ensures up { result.0.0 ≡ pos (listed_energy hour Up (registered self.now)) }
        ensures down { result.1.0 ≡ pos (listed_energy hour Down (registered self.now)) }
    {
        totals::listed_totals(self.as_slice(), hour)
    }

    // The upward less the downward energy of all of the party's activations in that portfolio and hour.
    pub fn supplement(&self, hour: Position, party: Party, portfolio: Portfolio) -> KilowattHours
        ensures { result.0 ≡ pos (account_energy hour party portfolio Up (registered self.now)) -ℤ pos (account_energy hour party portfolio Down (registered self.now)) }
    {
        totals::supplement(self.as_slice(), hour, party, portfolio)
    }
}
