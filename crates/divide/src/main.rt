// Reads a parish from `households.csv` and `links.csv` in the folder where it runs, and reports it, or what is wrong with
// the two sheets.
#![tactic(auto)]

use anyhow::Context;
use files::{ROOM, read_front};
use parish::Parish;
use report::report_sheets;
use std::io::Write;

mod files;

fn main(rt: HostRuntime) -> anyhow::Result<()> {
    let heap = rt.alloc();
    let mut parish = Parish::new(heap)?;
    let mut spare = Parish::new(heap)?;
    // Memory is asked for before a file is opened.
    let households = Vec::with_capacity(heap, ROOM)?;
    let links = Vec::with_capacity(heap, ROOM)?;
    let households = read_front(&rt, "households.csv", households)?;
    let links = read_front(&rt, "links.csv", links)?;
    // A report writes into lent bytes: so many hold any that there is.
    let mut out = [0; 128];
    let length = report_sheets(&mut parish, &mut spare, &households, &links, &mut out)
        .ok()
        .context("the report is too long")?;
    rt.stdout().write_all(&out[..length])?;
    Ok(())
}
