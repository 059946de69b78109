// Compares the calendar with one from outside: each line of the input has a date, its hours, and the instant at which it starts.
#![tactic(auto)]

use anyhow::Context;
use calendar::{Date, Instant};
use date_text::parse_date;
use std::io::{BufRead, BufReader};

// What a line says of a date.
#[derive(Drop)]
struct Vector {
    date: Date,
    hours: usize,
    start: Instant,
}

fn parse_vector(line: &str) -> Option<Vector> {
    let (date, rest) = line.split_once(' ')?;
    let (hours, start) = rest.split_once(' ')?;
    Some(Vector {
        date: parse_date(date)?,
        hours: hours.parse().ok()?,
        start: Instant(start.parse().ok()?),
    })
}

impl Vector {
    fn agrees(&self) -> bool {
        self.date.hours() == self.hours && self.date.start() == Ok(self.start)
    }
}

fn main(rt: HostRuntime) -> anyhow::Result<()> {
    let mut compared = 0u32;
    let mut differ = 0u32;
    // A loop and no chain, since it stops at a line of another form and prints the first difference.
    for line in BufReader::new(rt.alloc(), rt.stdin())?.lines(rt.alloc()) {
        let line = line?;
        if line.as_str().starts_with('#') {
            continue;
        }
        let vector = parse_vector(line.as_str()).context("a line of the input has another form")?;
        compared = compared.saturating_add(1);
        if !vector.agrees() {
            if differ == 0 {
                println!(rt; "first difference: {line}")?;
            }
            differ = differ.saturating_add(1);
        }
    }
    println!(rt; "{compared} days compared, {differ} differ")?;
    Ok(())
}
