// How a record brings its order.
ghost use Rattle.std.specs.Prelude.{◌≡◌, Bool, true};
ghost use Rattle.std.specs.Ordering.{MatchOrdering as ByAnswer};
ghost use Rattle.ordered.specs.Order.{TotalOrder};

use std::cmp::Ordering;

pub trait Ranked {
    // The one stands before the other.
    ghost before: { Self → Self → Bool };

    // The two take the same place, so a list holds at most one of them.
    ghost same: { Self → Self → Bool };

    fn compare(&self, other: &Self) -> Ordering
        ensures { ByAnswer result (before self.now other.now ≡ true) (same self.now other.now ≡ true) (before other.now self.now ≡ true) };

    // Exactly one of before, same and after holds, and before and same pass on.
    ghost order: { TotalOrder before same };
}
