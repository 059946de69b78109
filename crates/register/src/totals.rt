// Totals of energy over activations.
ghost use Rattle.std.specs.Prelude.{◌≡◌};
ghost use Rattle.register.specs.Totals.{Tells, total_of, Total, Supplement, listed_energy, account_energy};
ghost use Rattle.market.specs.declared.words.Direction.TheVariants.{Up, Down};

use market::{Activation, Direction, Kind, Portfolio};
use units::{KilowattHours, Party, Position};

// The upward and the downward energy of the activations that count.
fn totals<F: Fn(&Activation) -> bool>(
    activations: &[Activation],
    counts: F,
) -> (KilowattHours, KilowattHours)
    requires { F.IsAlwaysCallable counts }
    ensures up { (test : _) → Tells F.Fn counts test → Total activations.now (total_of test Up activations.now) result.0.0 }
    ensures down { (test : _) → Tells F.Fn counts test → Total activations.now (total_of test Down activations.now) result.1.0 }
{
    let mut up = 0i64;
    let mut down = 0i64;
    // A rule of the project: energies are summed by a loop with an index over the records.
    for place in 0..activations.len() {
        let activation = &activations[place];
        if counts(activation) {
            let KilowattHours(energy) = activation.energy();
            match activation.direction {
                Direction::Up => up = up.saturating_add(energy),
                Direction::Down => down = down.saturating_add(energy),
            }
        }
    }
    (KilowattHours(up), KilowattHours(down))
}

// The upward and the downward listed energy of the hour.
pub fn listed_totals(activations: &[Activation], hour: Position) -> (KilowattHours, KilowattHours)
    ensures up { Total activations.now (listed_energy hour Up activations.now) result.0.0 }
    ensures down { Total activations.now (listed_energy hour Down activations.now) result.1.0 }
{
    totals(activations, |activation| {
        activation.hour == hour && activation.kind == Kind::Listed
    })
}

// The upward less the downward energy of all of the party's activations in that portfolio and hour.
pub fn supplement(
    activations: &[Activation],
    hour: Position,
    party: Party,
    portfolio: Portfolio,
) -> KilowattHours
    ensures { Supplement activations.now (account_energy hour party portfolio Up activations.now) (account_energy hour party portfolio Down activations.now) result.0 }
{
    let (up, down) = totals(activations, |activation| {
        activation.hour == hour && activation.party == party && activation.portfolio == portfolio
    });
    KilowattHours(up.0 - down.0)
}
