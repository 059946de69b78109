// Replays the sample day and prints its sheet.
#![tactic(auto)]

use calendar::Date;
use day::MeteredDay;
use ladder::Offer;
use market::{Direction, Minutes, Portfolio};
use notices::Notice;
use positions::Meter;
use pricing::policies::Nordic;
use replay::{MeteredCall, PlannedCall, RunningCall, replay};
use sheet::write_sheet;
use std::io::Write;
use units::{KilowattHours, Kilowatts, Party, Position, Price};

const DATE: Date = Date {
    year: 2017,
    month: 12,
    day: 20,
};

const HOUR: Position = Position(8);

const SPOT: i32 = 3_000;

const HOURS: usize = 24;

const PRODUCER: Party = Party(0);

const CONSUMER: Party = Party(1);

const SHEET_SPACE: usize = 256;

fn notice(sender: Party, counterparty: Party, energy: i64) -> PlannedCall {
    PlannedCall::Notice(Notice {
        hour: HOUR,
        sender,
        counterparty,
        energy: KilowattHours(energy),
    })
}

fn read(party: Party, meter: Meter, energy: i64) -> MeteredCall<Nordic> {
    MeteredCall::Read(HOUR, party, meter, KilowattHours(energy))
}

fn print_sheet(rt: &HostRuntime, day: &MeteredDay) -> anyhow::Result<()> {
    let mut sheet = [0; SHEET_SPACE];
    let length = write_sheet(day, &mut sheet)?;
    rt.stdout().write_all(&sheet[..length])?;
    Ok(())
}

fn main(rt: HostRuntime) -> anyhow::Result<()> {
    // The producer plans 20,000 kWh and sells them to the consumer.
    let planned = [
        PlannedCall::Enter,
        PlannedCall::Enter,
        PlannedCall::Plan(HOUR, PRODUCER, KilowattHours(20_000)),
        notice(PRODUCER, CONSUMER, -20_000),
        notice(CONSUMER, PRODUCER, 20_000),
    ];
    // It offers 10,000 kW upward, and is activated for half an hour.
    let offer = Offer {
        hour: HOUR,
        party: PRODUCER,
        portfolio: Portfolio::Production,
        direction: Direction::Up,
        volume: Kilowatts(10_000),
        price: Price(3_500),
    };
    let running = [
        RunningCall::Bid(offer),
        RunningCall::Activate(HOUR, Direction::Up, Minutes { first: 0, last: 30 }),
    ];
    let metered = [
        read(PRODUCER, Meter::Production, 26_000),
        read(PRODUCER, Meter::Consumption, 0),
        read(CONSUMER, Meter::Production, 0),
        read(CONSUMER, Meter::Consumption, 26_000),
        MeteredCall::Settle(HOUR, Nordic),
    ];
    let run = replay(
        rt.alloc(),
        DATE,
        &[SPOT; HOURS],
        &planned,
        &running,
        &metered,
    )?;
    print_sheet(&rt, &run.day)
}
