// Parties, the clock, plans and notices.
ghost use Rattle.journal.specs.Journal.{Entered, Plan, Noticed, Clock};
ghost use Rattle.journal.specs.Refused.{enter_refused, clock_refused, plan_refused, notice_refused};
ghost use Rattle.book.specs.View.{Call};

use super::Book;
use calendar::Instant;
use notices::Notice;
use refusal::Refusal;
use rows::{check_notice, check_plan};
use units::{KilowattHours, Party, Position};

impl Book {
    // Enters one more party, and answers its number.
    pub fn enter(&mut self) -> Result<Party, Refusal>
        ensures { Call enter_refused (λ party. Entered party.0) result self.old self.new }
    {
        self.timetable.enter()
    }

    // Sets the clock.
    pub fn set_clock(&mut self, instant: Instant) -> Result<(), Refusal>
        ensures { Call (λ f. clock_refused f instant.0) (λ _. Clock instant.0) result self.old self.new }
    {
        self.timetable.set_clock(instant)
    }

    // A party's planned production in an hour; the last plan counts.
    pub fn plan(
        &mut self,
        hour: Position,
        party: Party,
        energy: KilowattHours,
    ) -> Result<(), Refusal>
        ensures { Call (λ f. plan_refused f hour.0 party.0 energy.0) (λ _. Plan hour.0 party.0 energy.0) result self.old self.new }
    {
        check_plan(&self.timetable, hour, party, energy)?;
        self.positions.set_plan(hour, party, energy);
        Ok(())
    }

    // A notice; it replaces the sender's earlier one for that counterparty and hour, and a zero removes it.
    pub fn notice(&mut self, notice: Notice) -> Result<(), Refusal>
        ensures { Call (λ f. notice_refused f notice) (λ _. Noticed notice) result self.old self.new }
    {
        let room = self.notices.has_place_for(&notice);
        check_notice(&self.timetable, &notice, room)?;
        self.notices.take(notice)
    }
}
