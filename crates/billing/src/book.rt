// An hour's books.
ghost use Rattle.std.specs.Prelude.{◌≡◌};
ghost use Rattle.billing.specs.Booked.{notice_in};

use notices::{Notice, NoticeTable};
use register::Register;
use units::{KilowattHours, Party, Position};

// One party's figures of the hour.
#[derive(Clone, Copy)]
pub struct Metered {
    pub party: Party,
    pub plan: KilowattHours,
    pub produced: KilowattHours,
    pub consumed: KilowattHours,
}

// The books of the day, open at one hour.
#[derive(Clone, Copy)]
pub struct HourBook<'a> {
    pub position: Position,
    // How many parties are entered.
    pub parties: usize,
    pub notices: &'a NoticeTable,
    pub register: &'a Register,
}

impl HourBook<'_> {
    // What the sender's kept notice to the counterparty says, 0 where none is kept.
    pub(crate) fn notice(&self, sender: Party, counterparty: Party) -> KilowattHours
        ensures { result.0 ≡ notice_in self.now sender.0 counterparty.0 }
    {
        self.notices.energy_like(&Notice {
            hour: self.position,
            sender,
            counterparty,
            energy: KilowattHours(0),
        })
    }
}
