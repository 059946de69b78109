// Prints the hours of a local day: for each position its stamp, the instant at which it starts, and the local offset.
#![tactic(auto)]

use anyhow::{Context, ensure};
use calendar::Date;
use date_text::parse_date;
use std::env;
use std::process::ExitCode;
use units::Position;

fn print_hour(rt: &impl Print, date: Date, position: Position) -> anyhow::Result<()> {
    let (hour, mark) = date.stamp(position)?;
    let start = date.start_of(position)?;
    let ahead = date.minutes_ahead(position)?;
    println!(rt;
        "{:2}  {hour:02}{mark}  {:8}  UTC+{}",
        position.0,
        start.0,
        ahead / 60
    )?;
    Ok(())
}

fn print_day(rt: &impl Print, date: Date) -> anyhow::Result<()> {
    let hours = date.hours();
    println!(rt; "{date}  {hours} hours")?;
    // A `for`, which ends at a line that cannot be printed.
    for position in (0..hours).map(Position) {
        print_hour(rt, date, position)?;
    }
    Ok(())
}

fn run(rt: &HostRuntime) -> anyhow::Result<()> {
    let text = env::args(rt)?.nth(1).context("give a date, as 2017-10-29")?;
    let date = parse_date(text.as_str()).context("the argument is no date of the form YYYY-MM-DD")?;
    ensure!(
        date.hours() != 0,
        "the date is not in the calendar from 2000-01-01 to 2099-12-31"
    );
    print_day(rt, date)
}

// An error that main returned would be printed as `Error: ..`, so it is printed here.
fn main(rt: HostRuntime) -> anyhow::Result<ExitCode> {
    match run(&rt) {
        Ok(()) => Ok(ExitCode::SUCCESS),
        Err(error) => {
            eprintln!(rt; "hours: {error}")?;
            Ok(ExitCode::FAILURE)
        }
    }
}
