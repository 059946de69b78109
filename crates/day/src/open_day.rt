// A day that is not over yet. At each of its stages it takes plans, notices and the clock.
ghost use Rattle.std.specs.Prelude.{◌≡◌};
ghost use Rattle.timetable.specs.View.{times};
ghost use Rattle.journal.specs.Figures.{times_of};
ghost use Rattle.journal.specs.Journal.{Plan, Noticed, Clock};
ghost use Rattle.journal.specs.Refused.{plan_refused, notice_refused, clock_refused};
ghost use Rattle.journal.specs.Made.{Made};
ghost use Rattle.day.specs.View.{open_at};

use crate::stage::{Planned, Running, Stage};
use book::Book;
use calendar::Instant;
use notices::Notice;
use refusal::Refusal;
use timetable::Timetable;
use units::{KilowattHours, Party, Position};

#[derive(Drop)]
pub struct OpenDay<S: Stage> {
    pub(crate) book: Book,
    pub(crate) stage: S,
}

// A day that takes parties, plans, notices and the clock.
pub type PlannedDay = OpenDay<Planned>;

// A day that takes plans, notices, the clock, bids and activations.
pub type RunningDay = OpenDay<Running>;

impl<S: Stage> OpenDay<S> {
    // Here and below an hour and a party are named apart: each is looked up, and refused, by itself.
    // A party's planned production in an hour; the last plan counts.
    pub fn plan(
        &mut self,
        hour: Position,
        party: Party,
        energy: KilowattHours,
    ) -> Result<(), Refusal>
        ensures { Made (plan_refused (open_at S.stage self.old) hour.0 party.0 energy.0) (λ _. Plan hour.0 party.0 energy.0) result (open_at S.stage self.old) (open_at S.stage self.new) }
    {
        self.book.plan(hour, party, energy)
    }

    // A notice; it replaces the sender's earlier one for that counterparty and hour, and a zero removes it.
    pub fn notice(&mut self, notice: Notice) -> Result<(), Refusal>
        ensures { Made (notice_refused (open_at S.stage self.old) notice) (λ _. Noticed notice) result (open_at S.stage self.old) (open_at S.stage self.new) }
    {
        self.book.notice(notice)
    }

    // Sets the clock; it never goes back.
    pub fn set_clock(&mut self, instant: Instant) -> Result<(), Refusal>
        ensures { Made (clock_refused (open_at S.stage self.old) instant.0) (λ _. Clock instant.0) result (open_at S.stage self.old) (open_at S.stage self.new) }
    {
        self.book.set_clock(instant)
    }

    // The day's date, hours and spot prices, its clock, and how many parties are entered.
    pub fn timetable(&self) -> &Timetable
        ensures { times result.now ≡ times_of (open_at S.stage self.now) }
    {
        self.book.timetable()
    }
}
