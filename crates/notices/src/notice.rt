// A notice, and the order in which notices stand.
ghost use Rattle.std.specs.Prelude.{◌≡◌};
ghost use Rattle.notices.specs.Order.{notice_before, notice_same, is_zero, notice_key};
ghost use Rattle.ordered.proofs.Lexical.{lex_order};

use ordered::Ranked;
use std::cmp::Ordering;
use units::{KilowattHours, Party, Position};

// What the sender buys from the counterparty in the hour; negative where it sells.
#[derive(Clone, Copy)]
pub struct Notice {
    pub hour: Position,
    pub sender: Party,
    pub counterparty: Party,
    pub energy: KilowattHours,
}

impl Notice {
    pub(crate) fn is_zero(self) -> bool
        ensures { result ≡ is_zero self }
    {
        self.energy == KilowattHours(0)
    }

    fn key(&self) -> (Position, Party, Party)
        ensures { result ≡ (self.now.hour, self.now.sender, self.now.counterparty) }
    {
        (self.hour, self.sender, self.counterparty)
    }
}

impl Ranked for Notice {
    ghost before = { notice_before };

    ghost same = { notice_same };

    ghost order = { lex_order notice_key };

    fn compare(&self, other: &Notice) -> Ordering {
        self.key().cmp(&other.key())
    }
}
