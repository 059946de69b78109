// Two days billed by hand, energy times price.
ghost use Rattle.std.specs.Prelude.{◌≡◌, map};
ghost use Rattle.settlement.specs.Bills.{bill_of};

use units::Mills;

// The day with one listed activation that sets the price; and the one with a short activation, a special one and a notice
// from outside. An enum, so that a contract can name a day.
#[derive(Clone, Copy)]
pub enum WorkedDay {
    Sample,
    Mixed,
}

// 1,000 kWh of surplus at 3,000 and 5,000 kWh activated at 3,500, against 6,000 kWh of shortfall at 3,500.
fn sample_bill() -> [Mills; 3]
    ensures { map (λ m. m.0) result ≡ bill_of WorkedDay.Sample }
{
    let surplus = 1_000 * 3_000;
    let activated = 5_000 * 3_500;
    let shortfall = 6_000 * 3_500;
    [
        Mills(surplus + activated),
        Mills(-shortfall),
        Mills(shortfall - surplus - activated),
    ]
}

// Imbalances at 3,000: 1,100 and -1,000 kWh of the first party, 700 of the second. Activations at their own prices: 900 kWh up
// at 3,600, and 1,200 down at 100.
fn mixed_bill() -> [Mills; 3]
    ensures { map (λ m. m.0) result ≡ bill_of WorkedDay.Mixed }
{
    let first = (1_100 - 1_000) * 3_000 + 900 * 3_600;
    let second = 700 * 3_000 - 1_200 * 100;
    [Mills(first), Mills(second), Mills(-first - second)]
}

// The accounts of the two parties and of the operator.
pub fn hand_bill(day: WorkedDay) -> [Mills; 3]
    ensures { map (λ m. m.0) result ≡ bill_of day }
{
    match day {
        WorkedDay::Sample => sample_bill(),
        WorkedDay::Mixed => mixed_bill(),
    }
}
