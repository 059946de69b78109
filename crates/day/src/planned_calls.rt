// The calls of a planned day alone.
ghost use Rattle.std.specs.Prelude.{◌≡◌, IfOk};
ghost use Rattle.timetable.specs.Opening.{opened_times};
ghost use Rattle.journal.specs.Figures.{opened};
ghost use Rattle.journal.specs.Journal.{Entered, Start, after};
ghost use Rattle.journal.specs.Refused.{enter_refused};
ghost use Rattle.journal.specs.Lawful.{LawfulOpening, Lawful};
ghost use Rattle.journal.specs.Made.{Made};
ghost use Rattle.day.specs.View.{planned, running};

use crate::open_day::{PlannedDay, RunningDay};
use crate::stage::{Planned, Running};
use book::Book;
use calendar::Date;
use refusal::Refusal;
use std::alloc::{AllocError, Global};
use units::Party;

impl PlannedDay {
    // Opens the day of that date with a spot price for each hour; where that is refused, the day without hours.
    // All memory is reserved here, so nothing later can want for it.
    pub fn open(heap: Global, date: Date, prices: &[i32]) -> Result<PlannedDay, AllocError>
        ensures value { IfOk result (λ day. planned day ≡ opened (opened_times date prices.now).opening) }
        ensures lawful { IfOk result (λ day. LawfulOpening (planned day).opening) }
    {
        let book = Book::open(heap, date, prices)?;
        Ok(PlannedDay {
            book,
            stage: Planned,
        })
    }

    // Enters one more party, and answers its number.
    pub fn enter(&mut self) -> Result<Party, Refusal>
        ensures { Made (enter_refused (planned self.old)) (λ party. Entered party.0) result (planned self.old) (planned self.new) }
    {
        self.book.enter()
    }

    // The day begins to run. It takes no more parties.
    pub fn start(self) -> RunningDay
        ensures { Lawful Start (planned self) × (running result ≡ after Start (planned self)) }
    {
        RunningDay {
            book: self.book,
            stage: Running,
        }
    }
}
