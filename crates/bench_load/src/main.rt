// How long a load of the largest parish takes. The time goes to standard error, since it is never the same.
#![tactic(auto)]

ghost use Rattle.std.specs.Prelude.{◌≡◌, ◌++◌, IfOk, MatchResult};
ghost use Rattle.std.specs.List.{repeat};
ghost use Rattle.parish.specs.View.{view};
ghost use Rattle.spelling.specs.Laws.{Loaded, Faulty};

use anyhow::anyhow;
use faults::LoadFault;
use parish::Parish;
use spelling::Counts;
use std::alloc::{AllocError, Global};
use std::time::Instant;

const LOADS: u32 = 1000;

// A names line, and a value line so many times.
fn sheet(heap: Global, names: &[u8], line: &[u8], count: usize) -> Result<Vec<u8>, AllocError>
    ensures { IfOk result (λ v. v.items ≡ names.now ++ repeat count line.now) }
{
    let mut bytes = Vec::new(heap);
    bytes.extend_from_slice(names)?;
    bytes.extend_from_slice(&line.repeat(heap, count)?)?;
    Ok(bytes)
}

// Loads two sheets again and again, and answers what the last load does.
fn load(
    parish: &mut Parish,
    spare: &mut Parish,
    households: &[u8],
    links: &[u8],
) -> Result<Counts, LoadFault>
    ensures { MatchResult result (λ c. Loaded households.now links.now (view parish.new) c)
        (λ f. Faulty households.now links.now f) }
{
    let mut counts = sheets::read(parish, spare, households, links)?;
    for _ in 1..LOADS {
        counts = sheets::read(parish, spare, households, links)?;
    }
    Ok(counts)
}

fn main(rt: HostRuntime) -> anyhow::Result<()> {
    let heap = rt.alloc();
    let households = sheet(heap, b"weight,lot\n", b"10000,A\n", 128)?;
    let links = sheet(heap, b"from,to,strength\n", b"100,127,1000\n", 1024)?;
    let mut parish = Parish::new(heap)?;
    let mut spare = Parish::new(heap)?;
    let start = Instant::now(&rt)?;
    let loaded = load(&mut parish, &mut spare, &households, &links);
    let counts = loaded.map_err(|_| anyhow!("the sheets are refused"))?;
    let micros = start.elapsed(&rt)?.as_micros() / u128::from(LOADS);
    println!(rt;
        "{} households, {} links, {LOADS} loads",
        counts.households, counts.links
    )?;
    eprintln!(rt; "{micros} microseconds a load")?;
    Ok(())
}
