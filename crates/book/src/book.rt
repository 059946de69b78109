// The book, with what holds of it at all times.
ghost use Rattle.book.specs.Parts.{Sound};

use ladder::Ladder;
use notices::NoticeTable;
use positions::PositionTable;
use register::Register;
use timetable::Timetable;

mod bills;
mod opens;
mod plans;
mod reads;
mod trades;

#[derive(Drop)]
pub struct Book {
    timetable: Timetable,
    positions: PositionTable,
    notices: NoticeTable,
    ladder: Ladder,
    register: Register,
    ghost sound: { ∥ Sound timetable positions notices ladder register ∥₁ },
}
