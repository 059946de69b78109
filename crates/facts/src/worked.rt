// Hours that docs/facts.md works out by hand.
ghost use Rattle.std.specs.Prelude.{◌≡◌};
ghost use Rattle.register.specs.Totals.{Few};
ghost use Rattle.market.specs.declared.words.Direction.TheVariants.{Up, Down};
ghost use Rattle.market.specs.declared.words.Kind.TheVariants.{Listed};
ghost use Rattle.facts.specs.Worked.{example, facts_with, facts_between, worked_hours};

use crate::facts_of;
use market::figures::{MINUTES_IN_HOUR, PRICE_SETTING_MINUTES};
use market::{Activation, Bid, Direction, Kind, Minutes, Portfolio};
use pricing::Facts;
use units::{Kilowatts, Party, Position, Price, Receipt};

const SPOT: Price = Price(3_000);

const HOUR: Position = Position(7);

const WHOLE_HOUR: Minutes = Minutes {
    first: 0,
    last: MINUTES_IN_HOUR,
};

const FIRST_HALF: Minutes = Minutes { first: 0, last: 30 };

const SECOND_HALF: Minutes = Minutes {
    first: 30,
    last: MINUTES_IN_HOUR,
};

const TEN_MINUTES: Minutes = Minutes {
    first: 20,
    last: 30,
};

const NINE_MINUTES: Minutes = Minutes {
    first: 20,
    last: 29,
};

// 6,000 kW at 3,500 upward or 2,500 downward.
fn example(kind: Kind, direction: Direction, minutes: Minutes) -> Activation
    ensures { result ≡ example kind direction minutes.first minutes.last }
{
    let price = match direction {
        Direction::Up => Price(3_500),
        Direction::Down => Price(2_500),
    };
    Activation {
        hour: HOUR,
        minutes,
        arrival: 0,
        party: Party(0),
        portfolio: Portfolio::Production,
        direction,
        volume: Kilowatts(6_000),
        price,
        kind,
    }
}

// With no bids standing.
fn facts_with(activations: &[Activation]) -> Facts
    requires { Few activations.now }
    ensures { result ≡ facts_with activations.now }
{
    facts_of(PRICE_SETTING_MINUTES, SPOT, HOUR, activations, &[], &[])
}

// With an upward and a downward bid standing, and nothing listed.
fn facts_between(spot: Price, up: Price, down: Price) -> Facts
    ensures { result ≡ facts_between spot up down }
{
    let upward = Bid {
        hour: HOUR,
        receipt: Receipt(1),
        party: Party(0),
        portfolio: Portfolio::Production,
        direction: Direction::Up,
        volume: Kilowatts(6_000),
        price: up,
        held: false,
    };
    let downward = Bid {
        receipt: Receipt(2),
        direction: Direction::Down,
        price: down,
        ..upward
    };
    facts_of(
        PRICE_SETTING_MINUTES,
        spot,
        HOUR,
        &[],
        &[upward],
        &[downward],
    )
}

fn upward(minutes: Minutes) -> Activation
    ensures { result ≡ example Listed Up minutes.first minutes.last }
{
    example(Kind::Listed, Direction::Up, minutes)
}

fn downward(minutes: Minutes) -> Activation
    ensures { result ≡ example Listed Down minutes.first minutes.last }
{
    example(Kind::Listed, Direction::Down, minutes)
}

pub fn worked_cases() -> [Facts; 7]
    ensures { result ≡ worked_hours }
{
    [
        facts_between(Price(-1), Price(-1), Price(-2)),
        facts_with(&[upward(TEN_MINUTES)]),
        facts_with(&[upward(NINE_MINUTES)]),
        facts_with(&[upward(FIRST_HALF), downward(SECOND_HALF)]),
        facts_with(&[downward(FIRST_HALF), upward(SECOND_HALF)]),
        facts_with(&[upward(WHOLE_HOUR), downward(WHOLE_HOUR)]),
        facts_with(&[example(Kind::Special, Direction::Up, WHOLE_HOUR)]),
    ]
}
