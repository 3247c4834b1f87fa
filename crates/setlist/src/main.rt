//! Reads a sheet on standard input and prints its listing: `setlist [--places N] < SHEET`.
#![tactic(auto)]

use anyhow::anyhow;
use set_chooser::{Mass, MassPrice, Place, Row, RowTables, Slots, list};
use std::env;
use std::io::{Read, Write};

// As many as the entry for C has.
const DEFAULT_PLACES: usize = 1024;

// A job makes use of no more.
const MOST_PLACES: usize = 60_000;

// A listing is never longer.
const LONGEST_LISTING: usize = 1043;

const USAGE: &str = "usage: setlist [--places N] < SHEET, with N from 1 to 60000";

// A number of places, from 1 to 60,000.
fn parsed(text: &str) -> anyhow::Result<usize> {
    match text.parse::<usize>() {
        Ok(places) if (1..=MOST_PLACES).contains(&places) => Ok(places),
        _ => Err(anyhow!(USAGE)),
    }
}

// The number of places that the arguments ask for.
fn places_asked(rt: &HostRuntime) -> anyhow::Result<usize> {
    let mut args = env::args(rt)?.skip(1);
    let Some(option) = args.next() else {
        return Ok(DEFAULT_PLACES);
    };
    let Some(count) = args.next() else {
        return Err(anyhow!(USAGE));
    };
    if option.as_str() != "--places" || args.next().is_some() {
        return Err(anyhow!(USAGE));
    }
    parsed(count.as_str())
}

// Prints the listing, the first bytes of the output.
fn print_bytes(rt: &HostRuntime, listing: &[u8]) -> anyhow::Result<()> {
    let mut to = rt.stdout();
    to.write_all(listing)?;
    to.flush()?;
    Ok(())
}

fn run(rt: &HostRuntime) -> anyhow::Result<()> {
    let count = places_asked(rt)?;
    let mut sheet = Vec::new(rt.alloc());
    let _ = rt.stdin().read_to_end(&mut sheet)?;
    let mut places = vec![in rt.alloc(); Place::EMPTY; count]?;
    let mut mass = vec![in rt.alloc(); Row::EMPTY; count]?;
    let mut wait = vec![in rt.alloc(); Row::EMPTY; count]?;
    let mut mass_price = vec![in rt.alloc(); Row::EMPTY; count]?;
    let mut slots = vec![in rt.alloc(); None; 4 * count]?;
    let mut out = vec![in rt.alloc(); 0u8; LONGEST_LISTING]?;
    let mut rows = RowTables {
        mass: &mut mass,
        wait: &mut wait,
        mass_price: &mut mass_price,
    };
    match list(
        &sheet,
        &mut places,
        &mut rows,
        &mut Slots::over(&mut slots),
        &mut out,
    ) {
        Ok(written) => print_bytes(rt, &out[0..written]),
        // No listing is longer than the output; a sheet's list is refused for nothing else.
        Err(_) => Err(anyhow!("the listing is too long")),
    }
}

fn main(rt: HostRuntime) -> anyhow::Result<()> {
    run(&rt)
}
