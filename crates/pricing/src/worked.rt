// Hours that docs/pricing.md prices by hand.
ghost use Rattle.std.specs.Prelude.{◌≡◌};
ghost use Rattle.std.specs.List.{AllByRecursion};
ghost use Rattle.pricing.specs.Policies.{Regular};
ghost use Rattle.pricing.specs.Worked.{nordic_cases, dutch_cases};

use crate::policies::{Dutch, Nordic};
use crate::{Facts, PricedHour};
use units::{KilowattHours, Price};

// Nothing is listed.
const QUIET: Facts = Facts {
    spot: Price(3000),
    up_price: Price(3500),
    down_price: Price(2500),
    middle: Price(-2),
    net_energy: KilowattHours(0),
    rose: false,
    fell: false,
    went_up: false,
    went_down: false,
};

const UPWARD: Facts = Facts {
    net_energy: KilowattHours(5000),
    went_up: true,
    ..QUIET
};

const DOWNWARD: Facts = Facts {
    net_energy: KilowattHours(-5000),
    went_down: true,
    ..QUIET
};

pub fn nordic_cases() -> [PricedHour; 4]
    ensures table { result ≡ nordic_cases }
    ensures regular { AllByRecursion (λ h. Regular h.facts) result }
{
    let upward = Facts {
        down_price: Price(3000),
        ..UPWARD
    };
    let downward = Facts {
        up_price: Price(3000),
        ..DOWNWARD
    };
    // The down price lies further from spot, and plays no part.
    let dearer_down = Facts {
        down_price: Price(-4000),
        net_energy: KilowattHours(1),
        went_down: true,
        ..UPWARD
    };
    [
        PricedHour::by(&Nordic, upward),
        PricedHour::by(&Nordic, downward),
        PricedHour::by(&Nordic, QUIET),
        PricedHour::by(&Nordic, dearer_down),
    ]
}

pub fn dutch_cases() -> [PricedHour; 7]
    ensures table { result ≡ dutch_cases }
    ensures regular { AllByRecursion (λ h. Regular h.facts) result }
{
    let both = Facts {
        went_down: true,
        ..UPWARD
    };
    let rising = Facts { rose: true, ..both };
    let falling = Facts { fell: true, ..both };
    let swinging = Facts {
        fell: true,
        ..rising
    };
    [
        PricedHour::by(&Dutch, QUIET),
        PricedHour::by(&Dutch, UPWARD),
        PricedHour::by(&Dutch, DOWNWARD),
        PricedHour::by(&Dutch, rising),
        PricedHour::by(&Dutch, falling),
        PricedHour::by(&Dutch, swinging),
        PricedHour::by(&Dutch, both),
    ]
}
