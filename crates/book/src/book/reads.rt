// Readings, and what is asked of a book.
ghost use Rattle.std.specs.Prelude.{◌≡◌, ◌&&◌, pos, is_some};
ghost use Rattle.std.specs.Option.{unwrap_or};
ghost use Rattle.positions.specs.declared.record.Meter.TheVariants.{Production, Consumption};
ghost use Rattle.positions.specs.Tables.{plans_of, readings_of};
ghost use Rattle.timetable.specs.View.{times};
ghost use Rattle.notices.specs.Kept.{kept};
ghost use Rattle.register.specs.Registered.{registered};
ghost use Rattle.settlement.specs.Hour.{imbalance};
ghost use Rattle.billing.specs.declared.book.Metered.{Metered};
ghost use Rattle.billing.specs.Booked.{hour_for, hour_in};
ghost use Rattle.journal.specs.Figures.{hour_at, facts_at};
ghost use Rattle.journal.specs.Journal.{Reading};
ghost use Rattle.journal.specs.Refused.{is_complete, is_settled, reading_refused};
ghost use Rattle.book.specs.View.{AcrossEveryView, Called, InEveryView};

use super::Book;
use billing::{HourBook, Metered};
use facts::facts_of;
use market::figures::PRICE_SETTING_MINUTES;
use market::{Direction, Portfolio};
use positions::Meter;
use pricing::Facts;
use refusal::Refusal;
use rows::check_reading;
use timetable::Timetable;
use units::{KilowattHours, Party, Position};

impl Book {
    // The day's hours and prices, its clock, and how many parties are entered.
    pub fn timetable(&self) -> &Timetable
        ensures { result.now ≡ self.now.timetable }
    {
        &self.timetable
    }

    // A reading of a party's meter in an hour that is settled or not; it replaces the earlier one.
    pub fn read(
        &mut self,
        hour: Position,
        party: Party,
        meter: Meter,
        energy: KilowattHours,
        settled: bool,
    ) -> Result<(), Refusal>
        ensures { AcrossEveryView self.old self.new (λ f g. is_settled f hour.0 ≡ settled → Called (reading_refused f hour.0 party.0 energy.0) (λ _. Reading hour.0 party.0 meter energy.0) result f g) }
    {
        check_reading(&self.timetable, hour, party, energy, settled)?;
        self.positions.set_reading(hour, party, meter, energy);
        Ok(())
    }

    // Whether both readings of every entered party are there.
    pub fn is_complete(&self, hour: Position) -> bool
        ensures { InEveryView self.now (λ f. result ≡ is_complete f hour.0) }
    {
        self.positions.complete(hour, self.timetable.parties())
    }

    // Whether both readings of the party are there.
    pub fn has_both(&self, hour: Position, party: Party) -> bool
        ensures { result ≡ (is_some (readings_of Production self.now.positions hour.0 party.0) && is_some (readings_of Consumption self.now.positions hour.0 party.0)) }
    {
        self.positions.has_both(hour, party)
    }

    // The facts of an hour.
    pub fn facts(&self, hour: Position) -> Facts
        ensures { InEveryView self.now (λ f. result ≡ facts_at f hour.0) }
    {
        facts_of(
            PRICE_SETTING_MINUTES,
            self.timetable.spot(hour),
            hour,
            self.register.as_slice(),
            self.ladder.standing(Direction::Up),
            self.ladder.standing(Direction::Down),
        )
    }

    // The books of the day, open at an hour.
    pub(super) fn hour_book(&self, hour: Position) -> HourBook<'_>
        ensures { (metered : Metered) → hour_in result metered ≡ hour_for hour (times self.now.timetable).parties metered (kept self.now.notices) (registered self.now.register) }
    {
        HourBook {
            position: hour,
            parties: self.timetable.parties(),
            notices: &self.notices,
            register: &self.register,
        }
    }

    // What a party planned and its meters read; a reading that is missing counts as 0.
    pub(super) fn metered(&self, hour: Position, party: Party) -> Metered
        ensures party { result.party ≡ party }
        ensures plan { result.plan.0 ≡ plans_of self.now.positions hour.0 party.0 }
        ensures produced { result.produced.0 ≡ unwrap_or (readings_of Production self.now.positions hour.0 party.0) (pos 0) }
        ensures consumed { result.consumed.0 ≡ unwrap_or (readings_of Consumption self.now.positions hour.0 party.0) (pos 0) }
    {
        let record = self.positions.record(hour, party);
        Metered {
            party,
            plan: record.plan,
            produced: record.produced.unwrap_or_default(),
            consumed: record.consumed.unwrap_or_default(),
        }
    }

    // The imbalance of a party's portfolio in an hour.
    pub fn imbalance(&self, hour: Position, party: Party, portfolio: Portfolio) -> KilowattHours
        ensures { InEveryView self.now (λ f. result.0 ≡ imbalance (hour_at f hour.0) portfolio party.0) }
    {
        self.hour_book(hour)
            .imbalance(portfolio, self.metered(hour, party))
    }
}
