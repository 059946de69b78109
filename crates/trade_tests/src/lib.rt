// Examples of bids, activations and energy, run. What they expect is worked out by hand from docs/market.md and docs/facts.md.
#![tactic(auto)]

#[cfg(test)]
mod tests {
    use facts::facts_of;
    use ladder::{Ladder, Offer};
    use market::{Activation, Direction, Kind, Minutes, Portfolio};
    use refusal::Refusal;
    use register::Register;
    use std::test::Fail;
    use units::{Kilowatts, Party, Position, Price, Receipt};

    const HOUR: Position = Position(8);

    fn offer(direction: Direction, price: i32) -> Offer {
        Offer {
            hour: HOUR,
            party: Party(0),
            portfolio: Portfolio::Production,
            direction,
            volume: Kilowatts(10_000),
            price: Price(price),
        }
    }

    fn upward(minutes: Minutes, kind: Kind) -> Activation {
        Activation {
            hour: HOUR,
            minutes,
            arrival: 0,
            party: Party(0),
            portfolio: Portfolio::Production,
            direction: Direction::Up,
            volume: Kilowatts(10_000),
            price: Price(3_500),
            kind,
        }
    }

    // The cheapest upward bid goes first, and of equal prices the earlier receipt; a held one is passed over.
    #[test]
    fn upward_bids_in_order(rt: HostRuntime) -> Result<(), Fail> {
        let mut ladder = Ladder::new(rt.alloc())?;
        ladder.add(offer(Direction::Up, 3_600))?;
        ladder.add(offer(Direction::Up, 3_500))?;
        ladder.add(offer(Direction::Up, 3_500))?;
        ladder.hold(Receipt(2), true)?;
        let first = ladder.take_first(HOUR, Direction::Up).ok_or("none")?;
        assert_eq!(rt; first.receipt.0, 3);
        let next = ladder.take_first(HOUR, Direction::Up).ok_or("none")?;
        assert_eq!(rt; next.receipt.0, 1);
        assert!(rt; ladder.take_first(HOUR, Direction::Up).is_none());
        ladder.hold(Receipt(2), false)?;
        assert!(rt; ladder.take_first(HOUR, Direction::Up).is_some());
        Ok(())
    }

    // The dearest downward bid goes first; a withdrawn one is gone.
    #[test]
    fn downward_bids_in_order(rt: HostRuntime) -> Result<(), Fail> {
        let mut ladder = Ladder::new(rt.alloc())?;
        ladder.add(offer(Direction::Down, 2_000))?;
        ladder.add(offer(Direction::Down, 2_500))?;
        let first = ladder.first_free(HOUR, Direction::Down).ok_or("none")?;
        assert_eq!(rt; first.receipt.0, 2);
        ladder.withdraw(Receipt(2))?;
        let next = ladder.first_free(HOUR, Direction::Down).ok_or("none")?;
        assert_eq!(rt; next.receipt.0, 1);
        match ladder.withdraw(Receipt(2)) {
            Ok(_) => Err(Fail::new("withdrawn twice")),
            Err(refusal) => {
                assert_eq!(rt; refusal.number(), 9);
                Ok(())
            },
        }
    }

    // Thirty minutes of 10,000 kW are 5,000 kWh, and set the up price; a special activation sets none.
    #[test]
    fn facts_of_an_hour(rt: HostRuntime) -> Result<(), Fail> {
        let mut register = Register::new(rt.alloc())?;
        register.enter(upward(Minutes { first: 0, last: 30 }, Kind::Listed))?;
        register.enter(upward(Minutes { first: 0, last: 60 }, Kind::Special))?;
        let (up, down) = register.listed_totals(HOUR);
        assert_eq!(rt; up.0, 5_000);
        assert_eq!(rt; down.0, 0);
        assert_eq!(rt;
            register.supplement(HOUR, Party(0), Portfolio::Production).0,
            15_000
        );
        let facts = facts_of(10, Price(3_000), HOUR, register.as_slice(), &[], &[]);
        assert_eq!(rt; facts.up_price.0, 3_500);
        assert_eq!(rt; facts.down_price.0, 3_000);
        assert_eq!(rt; facts.net_energy.0, 5_000);
        assert!(rt; facts.fell && !facts.rose && facts.went_up && !facts.went_down);
        Ok(())
    }
}
