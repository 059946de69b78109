// What a table of positions does.
ghost use Rattle.std.specs.Prelude.{◌≡◌, ◌&&◌, is_some, IfOk};
ghost use Rattle.std.specs.Option.{option_map};
ghost use Rattle.positions.specs.declared.record.Meter.TheVariants.{Production, Consumption};
ghost use Rattle.positions.specs.Figures.{in_table};
ghost use Rattle.positions.specs.Tables.{plans_of, readings_of, complete_to, Empty, Planned, Read};

use crate::record::{Meter, PositionRecord};
use crate::table::PositionTable;
use market::figures::{MOST_HOURS, MOST_PARTIES};
use std::alloc::{AllocError, Global};
use units::{KilowattHours, Party, Position};

// Whether the table has a record of the hour and party. A write tests and indexes, since of what `get_mut` leaves in an
// array only the length is known.
fn in_table(hour: Position, party: Party) -> bool
    ensures { result ≡ in_table hour.0 party.0 }
{
    hour.0 < MOST_HOURS && party.0 < MOST_PARTIES
}

impl PositionTable {
    // A table with nothing planned and nothing read. Its memory is reserved here, so nothing later can want for it.
    pub fn new(heap: Global) -> Result<PositionTable, AllocError>
        ensures { IfOk result Empty }
    {
        let hours = vec![in heap; [PositionRecord::default(); MOST_PARTIES]; MOST_HOURS]?;
        Ok(PositionTable { hours })
    }

    // The record of the hour and party; an empty one outside the table.
    pub fn record(&self, hour: Position, party: Party) -> PositionRecord
        ensures plan { result.plan.0 ≡ plans_of self.now hour.0 party.0 }
        ensures produced { option_map (λ e. e.0) result.produced ≡ readings_of Production self.now hour.0 party.0 }
        ensures consumed { option_map (λ e. e.0) result.consumed ≡ readings_of Consumption self.now hour.0 party.0 }
    {
        self.hours
            .get(hour.0)
            .and_then(|parties| parties.get(party.0))
            .copied()
            .unwrap_or_default()
    }

    // Whether both readings of the party are there.
    pub fn has_both(&self, hour: Position, party: Party) -> bool
        ensures { result ≡ (is_some (readings_of Production self.now hour.0 party.0) && is_some (readings_of Consumption self.now hour.0 party.0)) }
    {
        self.record(hour, party).has_both()
    }

    // Whether both readings of every party below `parties` are there.
    pub fn complete(&self, hour: Position, parties: usize) -> bool
        ensures { result ≡ complete_to parties (readings_of Production self.now hour.0) (readings_of Consumption self.now hour.0) }
    {
        (0..parties).all(|party| self.has_both(hour, Party(party)))
    }

    // Plans the energy of the party in the hour; outside the table it does nothing.
    pub fn set_plan(&mut self, hour: Position, party: Party, energy: KilowattHours)
        ensures { Planned hour.0 party.0 energy.0 self.old self.new }
    {
        if in_table(hour, party) {
            self.hours[hour.0][party.0].plan = energy;
        }
    }

    // Takes a reading of the party's meter in the hour; outside the table it does nothing.
    pub fn set_reading(&mut self, hour: Position, party: Party, meter: Meter, energy: KilowattHours)
        ensures { Read meter hour.0 party.0 energy.0 self.old self.new }
    {
        if in_table(hour, party) {
            self.hours[hour.0][party.0].read(meter, energy);
        }
    }
}
