// How a book is opened.
ghost use Rattle.std.specs.Prelude.{◌≡◌, IfOk, None};
ghost use Rattle.timetable.specs.Opening.{opened_times};
ghost use Rattle.journal.specs.Figures.{Planned, opened};
ghost use Rattle.book.specs.View.{shown};

use super::Book;
use calendar::Date;
use ladder::Ladder;
use notices::NoticeTable;
use positions::PositionTable;
use register::Register;
use std::alloc::{AllocError, Global};
use timetable::Timetable;

impl Book {
    // The book of a day just opened. All memory is reserved here, so nothing later can want for it.
    pub fn open(heap: Global, date: Date, prices: &[i32]) -> Result<Book, AllocError>
        ensures { IfOk result (λ b. shown Planned (λ h. None) b ≡ opened (opened_times date prices.now).opening) }
    {
        let timetable = Timetable::open(heap, date, prices)?;
        let positions = PositionTable::new(heap)?;
        let notices = NoticeTable::new(heap)?;
        let ladder = Ladder::new(heap)?;
        let register = Register::new(heap)?;
        Ok(Book {
            timetable,
            positions,
            notices,
            ladder,
            register,
        })
    }
}
