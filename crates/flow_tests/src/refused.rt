// What the layer refuses, as every bound does, and the parish of no household, which it does not.
use super::asking::{parish_of, refuses, tells};
use bounds::{Bare, Decided, LowerBound};
use cases::worked_parish;
use flow::Flow;
use parish::Parish;
use std::process::Abort;
use std::test::Fail;

#[test]
fn wrong_lists(rt: HostRuntime) -> Result<(), Fail> {
    let parish = worked_parish(rt.alloc())?;
    refuses_wrong_lists(&rt, &Flow(Bare), &parish)?;
    refuses_wrong_lists(&rt, &Flow(Decided), &parish)?;
    refuses_wrong_lists(&rt, &Flow(Flow(Decided)), &parish)
}

// The parish has four households and four links.
fn refuses_wrong_lists<B: LowerBound>(
    rt: &impl Abort,
    bound: &B,
    parish: &Parish,
) -> Result<(), Fail> {
    refuses(rt, bound, parish, &[1, 0, 2], 4, "a lot too few")?;
    refuses(rt, bound, parish, &[1, 0, 0, 2, 0], 4, "a lot too many")?;
    refuses(rt, bound, parish, &[], 4, "no lot")?;
    refuses(rt, bound, parish, &[1, 0, 0, 3], 4, "a lot above 2")?;
    refuses(rt, bound, parish, &[255, 0, 0, 2], 4, "the largest byte")?;
    refuses(rt, bound, parish, &[1, 0, 0, 2], 3, "a charge too few")?;
    refuses(rt, bound, parish, &[1, 0, 0, 2], 5, "a charge too many")?;
    refuses(rt, bound, parish, &[1, 0, 0, 2], 0, "no charge")
}

#[test]
fn no_household(rt: HostRuntime) -> Result<(), Fail> {
    let parish = parish_of(rt.alloc(), 0, &[])?;
    tells(&rt, &Flow(Bare), &parish, &[], 0, &[])?;
    tells(&rt, &Flow(Flow(Decided)), &parish, &[], 0, &[])?;
    refuses(&rt, &Flow(Bare), &parish, &[0], 0, "a lot too many")?;
    refuses(&rt, &Flow(Bare), &parish, &[], 1, "a charge too many")
}
