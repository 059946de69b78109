// What is reckoned from a day's accepted calls, and the three sums proved of it.
#![tactic(auto)]

ghost use Rattle.std.specs.Prelude.{◌≡◌, map};
ghost use Rattle.journal.specs.Kept.{RunsKeep};
ghost use Rattle.journal.specs.Sample.{SampleDay, MixedDay, accounts_of};
ghost use Rattle.journal.specs.Sums.{TheThreeSums, SumsOfSound, LawfulIsSound, NoticesReplace};

use settlement::{WorkedDay, hand_bill};
use units::Mills;

// The law of the three sums, for every opening and every lawful journal, and from a weaker premise that lawful
// journals meet; that a list of notices is read as a table; and two worked days: one that meets all that the law
// asks, one with a short and a special activation and a notice from outside.
pub fn three_sums()
    ensures law { TheThreeSums }
    ensures sound { SumsOfSound }
    ensures premise { LawfulIsSound }
    ensures notices { NoticesReplace }
    ensures kept { RunsKeep }
    ensures sample { SampleDay }
    ensures mixed { MixedDay }
{}

// The accounts of the two days are those of their bills by hand: of the two parties and of the operator.
pub fn worked_accounts(day: WorkedDay) -> [Mills; 3]
    ensures { map (λ m. m.0) result ≡ accounts_of day }
{
    hand_bill(day)
}
