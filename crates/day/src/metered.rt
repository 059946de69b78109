// A day that takes readings and settlements, with what holds of it at all times.
ghost use Rattle.day.specs.Parts.{metered_of, Reckoned};

use accounts::Accounts;
use book::Book;

// Not a third stage of OpenDay: they share `timetable` alone, and what holds of book and accounts is this type's own.
#[derive(Drop)]
pub struct MeteredDay {
    pub(crate) book: Book,
    pub(crate) accounts: Accounts,
    ghost reckoned: { ∥ Reckoned (metered_of book accounts) accounts ∥₁ },
}
