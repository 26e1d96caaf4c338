// Consulting a bound, and the time that it takes.
use super::drawn::{Drawn, Size};
use anyhow::Context;
use bounds::LowerBound;
use parish::Parish;
use std::time::{Duration, Instant};

// Different questions of one size, and how often each is asked.
const QUESTIONS: u32 = 20;

const TURNS: u32 = 10;

// What the questions of one size come to.
#[derive(Drop, Default)]
struct Tally {
    numbers: u32,
    charges: u32,
    time: Duration,
}

impl Tally {
    // Asks one question again and again.
    fn ask<B: LowerBound>(
        &mut self,
        rt: &HostRuntime,
        bound: &B,
        parish: &Parish,
        lots: &[u8],
        charges: &mut [u32],
    ) -> anyhow::Result<()> {
        let mut number = 0;
        let start = Instant::now(rt)?;
        for _ in 0..TURNS {
            number = bound
                .consult(parish, 0, lots, charges)
                .ok()
                .context("the question is refused")?;
        }
        self.time = self.time.saturating_add(start.elapsed(rt)?);
        self.numbers = self.numbers.wrapping_add(number);
        for charge in charges.iter() {
            self.charges = self.charges.wrapping_add(*charge);
        }
        Ok(())
    }
}

// Prints what the numbers and the charges of all questions of a size sum to, and how long one question takes.
pub(crate) fn time_bound<B: LowerBound>(
    rt: &HostRuntime,
    name: &str,
    bound: &B,
    size: Size,
) -> anyhow::Result<()> {
    let heap = rt.alloc();
    let mut parish = Parish::new(heap)?;
    let mut lots = vec![in heap; 0; size.households]?;
    let mut charges = vec![in heap; 0; size.links]?;
    let mut drawn = Drawn::new();
    let mut tally = Tally::default();
    for _ in 0..QUESTIONS {
        drawn
            .draw_parish(&mut parish, size)
            .ok()
            .context("the parish is refused")?;
        drawn.draw_lots(&mut lots, size);
        tally.ask(rt, bound, &parish, &lots, &mut charges)?;
    }
    print_tally(rt, name, size, &tally)
}

fn print_tally(rt: &HostRuntime, name: &str, size: Size, tally: &Tally) -> anyhow::Result<()> {
    let Tally {
        numbers,
        charges,
        time,
    } = tally;
    println!(rt; "{size}, {name}: numbers {numbers}, charges {charges}")?;
    let micros = time.as_secs_f64() * 1e6 / f64::from(QUESTIONS * TURNS);
    eprintln!(rt; "{size}, {name}: {micros:.1} microseconds a question")?;
    Ok(())
}
