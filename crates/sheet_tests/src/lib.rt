// Sheets of days that are settled by hand, run.
#![tactic(auto)]

#[cfg(test)]
mod tests {
    use calendar::Date;
    use day::{MeteredDay, PlannedDay};
    use ladder::Offer;
    use market::{Direction, Minutes, Portfolio};
    use positions::Meter;
    use pricing::policies::Nordic;
    use refusal::Refusal;
    use sheet::write_sheet;
    use std::alloc::Global;
    use std::test::Fail;
    use units::{KilowattHours, Kilowatts, Position, Price};

    const HOUR: Position = Position(8);

    // 5,000 kWh are activated upward at 3,500 from party 0, which produces 1,000 more; party 1 takes 6,000 that it has
    // not bought.
    fn settled_day(heap: Global) -> Result<MeteredDay, Fail> {
        let date = Date {
            year: 2017,
            month: 12,
            day: 20,
        };
        let mut day = PlannedDay::open(heap, date, &[3_000; 24])?;
        let maker = day.enter()?;
        let taker = day.enter()?;
        let mut day = day.start();
        let _ = day.bid(Offer {
            hour: HOUR,
            party: maker,
            portfolio: Portfolio::Production,
            direction: Direction::Up,
            volume: Kilowatts(10_000),
            price: Price(3_500),
        })?;
        let _ = day.activate(HOUR, Direction::Up, Minutes { first: 0, last: 30 })?;
        let mut day = day.finish();
        day.read(HOUR, maker, Meter::Production, KilowattHours(6_000))?;
        day.read(HOUR, maker, Meter::Consumption, KilowattHours(0))?;
        day.read(HOUR, taker, Meter::Production, KilowattHours(0))?;
        day.read(HOUR, taker, Meter::Consumption, KilowattHours(6_000))?;
        day.settle(HOUR, &Nordic)?;
        Ok(day)
    }

    // One byte short of its sheet, a buffer stays as it is.
    #[test]
    fn a_settled_hour(rt: HostRuntime) -> Result<(), Fail> {
        let day = settled_day(rt.alloc())?;
        let mut short = [b'.'; 85];
        assert_eq!(rt; write_sheet(&day, &mut short), Err(Refusal::SheetTooShort));
        assert_eq!(rt; short, [b'.'; 85]);
        let mut sheet = [b'.'; 90];
        assert_eq!(rt; write_sheet(&day, &mut sheet)?, 86);
        let text =
            b"DAY 2017-12-20 24\nH 08 5000 3000 3500 3500 3500\nP 00 20500000\nP 01 -21000000\nO 500000\n....";
        assert_eq!(rt; &sheet, text);
        Ok(())
    }

    // The hour that October has twice, the second settled before the first.
    #[test]
    fn marked_hours(rt: HostRuntime) -> Result<(), Fail> {
        let date = Date {
            year: 2017,
            month: 10,
            day: 29,
        };
        let mut day = PlannedDay::open(rt.alloc(), date, &[-150; 25])?
            .start()
            .finish();
        day.settle(Position(3), &Nordic)?;
        day.settle(Position(2), &Nordic)?;
        let mut sheet = [b'.'; 78];
        assert_eq!(rt; write_sheet(&day, &mut sheet)?, 78);
        let text =
            b"DAY 2017-10-29 25\nH 02A 0 -150 -150 -150 -150\nH 02B 0 -150 -150 -150 -150\nO 0\n";
        assert_eq!(rt; &sheet, text);
        Ok(())
    }
}
