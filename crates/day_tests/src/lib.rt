// Whole days, replayed. What they expect is worked out by hand from docs/book.md and docs/sums.md.
#![tactic(auto)]

#[cfg(test)]
mod tests {
    use calendar::{Date, Instant};
    use ladder::Offer;
    use market::{Direction, Minutes, Portfolio};
    use notices::Notice;
    use positions::Meter;
    use pricing::policies::Nordic;
    use refusal::Refusal;
    use replay::{MeteredCall, PlannedCall, Replay, RunningCall, replay};
    use std::test::Fail;
    use units::{KilowattHours, Kilowatts, Party, Position, Price};

    const DECEMBER: Date = Date {
        year: 2017,
        month: 12,
        day: 20,
    };

    const PRODUCER: Party = Party(0);

    const CONSUMER: Party = Party(1);

    fn upward(hour: Position) -> Offer {
        Offer {
            hour,
            party: PRODUCER,
            portfolio: Portfolio::Production,
            direction: Direction::Up,
            volume: Kilowatts(10_000),
            price: Price(3_500),
        }
    }

    fn notice(sender: Party, counterparty: Party, energy: i64) -> PlannedCall {
        PlannedCall::Notice(Notice {
            hour: Position(8),
            sender,
            counterparty,
            energy: KilowattHours(energy),
        })
    }

    fn read(hour: Position, party: Party, meter: Meter, energy: i64) -> MeteredCall<Nordic> {
        MeteredCall::Read(hour, party, meter, KilowattHours(energy))
    }

    fn imbalance(run: &Replay, hour: Position, portfolio: Portfolio) -> Result<i64, Fail> {
        Ok(run.day.imbalance(hour, PRODUCER, portfolio)?.0)
    }

    fn account(run: &Replay, party: Party) -> Result<i64, Fail> {
        Ok(run.day.account(party)?.0)
    }

    // Two hours of the October day are called 02. The first is regulated upward, and a producer that delivers just
    // what it planned, and the activation, is in balance in both.
    #[test]
    fn both_hours_called_02(rt: HostRuntime) -> Result<(), Fail> {
        let october = Date {
            year: 2017,
            month: 10,
            day: 29,
        };
        let first = Position(2);
        let second = Position(3);
        let planned = [
            PlannedCall::Enter,
            PlannedCall::Plan(first, PRODUCER, KilowattHours(10_000)),
            PlannedCall::Plan(second, PRODUCER, KilowattHours(10_000)),
        ];
        let running = [
            RunningCall::Bid(upward(first)),
            RunningCall::Activate(first, Direction::Up, Minutes { first: 0, last: 60 }),
        ];
        let metered = [
            read(first, PRODUCER, Meter::Production, 20_000),
            read(first, PRODUCER, Meter::Consumption, 0),
            read(second, PRODUCER, Meter::Production, 10_000),
            read(second, PRODUCER, Meter::Consumption, 0),
            MeteredCall::Settle(second, Nordic),
            MeteredCall::Settle(first, Nordic),
        ];
        let run = replay(
            rt.alloc(),
            october,
            &[3_000; 25],
            &planned,
            &running,
            &metered,
        )?;
        assert_eq!(rt; imbalance(&run, first, Portfolio::Production)?, 0);
        assert_eq!(rt; imbalance(&run, second, Portfolio::Production)?, 0);
        // What was planned and not sold is surplus of consumption and trade, in both hours.
        assert_eq!(rt;
            imbalance(&run, first, Portfolio::ConsumptionAndTrade)?,
            10_000
        );
        // 10,000 kWh at the up price twice, surplus and activation, and 10,000 kWh at spot.
        assert_eq!(rt; account(&run, PRODUCER)?, 100_000_000);
        assert_eq!(rt; run.day.operator_account().0, -100_000_000);
        Ok(())
    }

    // A producer sells 20,000 kWh to a consumer and is activated for half an hour in hour 8.
    #[test]
    fn one_hour_of_december(rt: HostRuntime) -> Result<(), Fail> {
        let hour = Position(8);
        let planned = [
            PlannedCall::Enter,
            PlannedCall::Enter,
            PlannedCall::Plan(hour, PRODUCER, KilowattHours(20_000)),
            notice(PRODUCER, CONSUMER, -20_000),
            notice(CONSUMER, PRODUCER, 20_000),
        ];
        let running = [
            RunningCall::Bid(upward(hour)),
            RunningCall::Activate(hour, Direction::Up, Minutes { first: 0, last: 30 }),
        ];
        let metered = [
            read(hour, PRODUCER, Meter::Production, 26_000),
            read(hour, PRODUCER, Meter::Consumption, 0),
            read(hour, CONSUMER, Meter::Production, 0),
            read(hour, CONSUMER, Meter::Consumption, 26_000),
            MeteredCall::Settle(hour, Nordic),
        ];
        let run = replay(
            rt.alloc(),
            DECEMBER,
            &[3_000; 24],
            &planned,
            &running,
            &metered,
        )?;
        assert_eq!(rt; account(&run, PRODUCER)?, 20_500_000);
        assert_eq!(rt; account(&run, CONSUMER)?, -21_000_000);
        assert_eq!(rt; run.day.operator_account().0, 500_000);
        Ok(())
    }

    // Hour 8 starts at 9,451,140: a plan is taken 45 minutes before it, and not a minute later.
    #[test]
    fn gate_closure(rt: HostRuntime) -> Result<(), Fail> {
        let plan = PlannedCall::Plan(Position(8), PRODUCER, KilowattHours(20_000));
        let planned = [
            PlannedCall::Enter,
            PlannedCall::Clock(Instant(9_451_095)),
            plan,
            PlannedCall::Clock(Instant(9_451_096)),
            plan,
        ];
        let run = replay::<Nordic>(rt.alloc(), DECEMBER, &[3_000; 24], &planned, &[], &[])?;
        assert_eq!(rt; run.planned[2].err(), None);
        assert_eq!(rt; run.planned[4].err().map(Refusal::number), Some(5));
        Ok(())
    }
}
