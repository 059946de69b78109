// How notices count, and the theory of a settled hour (specs and proofs).
#![tactic(auto)]

ghost use Rattle.std.specs.Prelude.{◌≡◌, [], ◌∷◌, map, pos, neg_ℤ};
ghost use Rattle.settlement.specs.Hour.{counted};

use units::KilowattHours;

mod bills;

pub use bills::{WorkedDay, hand_bill};

// What counts of a notice, given what the other of the two sent back: all of it where that is its exact negative, else nothing.
pub fn counted(sent: KilowattHours, back: KilowattHours) -> KilowattHours
    ensures { result.0 ≡ counted sent.0 back.0 }
{
    if i128::from(sent.0) + i128::from(back.0) == 0 {
        sent
    } else {
        KilowattHours(0)
    }
}

// Of -20,000 against 19,999, and against 20,000.
pub fn worked_notices() -> [KilowattHours; 2]
    ensures { map (λ e. e.0) result ≡ pos 0 ∷ neg_ℤ (pos 20_000) ∷ [] }
{
    let sale = KilowattHours(-20_000);
    [
        counted(sale, KilowattHours(19_999)),
        counted(sale, KilowattHours(20_000)),
    ]
}
