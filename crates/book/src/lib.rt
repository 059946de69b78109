// The book of a day: everything that its calls have said, with the calls that are the same at more than one stage.
#![tactic(auto)]

mod book;

pub use book::Book;
