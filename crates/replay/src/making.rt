// Calls made in turn.
ghost use Rattle.std.specs.Prelude.{◌≡◌, length, IfOk, Option};
ghost use Rattle.refusal.specs.declared.Refusal.{Refusal};
ghost use Rattle.timetable.specs.Opening.{Opening};
ghost use Rattle.journal.specs.Figures.{Figures};
ghost use Rattle.journal.specs.Journal.{Entry, Journal, figures};
ghost use Rattle.journal.specs.Lawful.{LawfulJournal};
ghost use Rattle.journal.specs.Made.{Made};
ghost use Rattle.replay.specs.declared.calls.Answer.{Answer};
ghost use Rattle.replay.specs.Runs.{RightlyTold, Ran};

use crate::calls::Answer;
use refusal::Refusal;
use std::alloc::{AllocError, Global};

// A call of a stage: the day that it is made on, with its figures, the row that refuses it, and the entry that it
// becomes when it is accepted with an answer.
pub(crate) trait Call {
    type Day;

    ghost shows: { Self.Day → Figures };

    ghost refused: { Figures → Self → Option Refusal };

    ghost entry: { Self → Answer → Entry };

    fn make(&self, day: &mut Self::Day) -> Result<Answer, Refusal>
        ensures made { Made (refused (shows day.old) self.now) (entry self.now) result (shows day.old) (shows day.new) }
        ensures told { RightlyTold entry self.now result };
}

// Makes the calls in turn, and answers what each came to. The memory is reserved before the first call.
pub(crate) fn make_all<C: Call>(
    heap: Global,
    day: &mut C::Day,
    calls: &[C],
) -> Result<Vec<Result<Answer, Refusal>>, AllocError>
    ensures all { IfOk result (λ answers. length answers.items ≡ length calls.now) }
    ensures ran { IfOk result (λ answers. (opening : Opening) (before : Journal) → C.shows day.old ≡ figures opening before → LawfulJournal opening before → Ran C.refused C.entry opening calls.now answers.items before (C.shows day.new)) }
{
    let mut answers = Vec::with_capacity(heap, calls.len())?;
    for call in calls {
        answers.push_reserved(call.make(day));
    }
    Ok(answers)
}
