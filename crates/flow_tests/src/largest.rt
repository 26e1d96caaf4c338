// The longest chain, and as many links as a parish holds.
use super::asking::{parish_of, tells};
use bounds::{Bare, Decided};
use flow::Flow;
use parish::{MOST_HOUSEHOLDS, MOST_LINKS};
use std::test::Fail;

// The weakest link of the chain is in its middle.
#[test]
fn chain(rt: HostRuntime) -> Result<(), Fail> {
    let mut parish = parish_of(rt.alloc(), MOST_HOUSEHOLDS, &[])?;
    for k in 0..127u32 {
        // By `as`: std has no `From` of 32 bits for a `usize`.
        parish.add_link(k as usize, k as usize + 1, 10 + k.abs_diff(63))?;
    }
    let mut lots = [0; MOST_HOUSEHOLDS];
    lots[0] = 1;
    lots[127] = 2;
    tells(&rt, &Flow(Bare), &parish, &lots, 10, &[10; 127])?;
    tells(&rt, &Flow(Decided), &parish, &lots, 10, &[10; 127])
}

// Links between household 1 and the two others, in turn, each of the largest strength.
#[test]
fn most_links(rt: HostRuntime) -> Result<(), Fail> {
    let mut parish = parish_of(rt.alloc(), 3, &[])?;
    for k in 0..MOST_LINKS {
        parish.add_link(k % 2 * 2, 1, 1_000)?;
    }
    let whole = [1_000; MOST_LINKS];
    tells(&rt, &Flow(Bare), &parish, &[1, 0, 2], 512_000, &whole)?;
    tells(&rt, &Flow(Decided), &parish, &[2, 0, 1], 512_000, &whole)?;
    tells(&rt, &Flow(Bare), &parish, &[1, 2, 1], 1_024_000, &whole)?;
    tells(&rt, &Flow(Decided), &parish, &[2, 1, 2], 1_024_000, &whole)
}
