// What the layer adds, on small parishes.
use super::asking::{parish_of, tells};
use bounds::{Bare, Decided};
use cases::worked_parish;
use flow::Flow;
use std::test::Fail;

// With 0 in A and 3 in B, 1 flows over the link between them and 1 around the ring. Over decided the first is charged below,
// and a second layer finds no way left.
#[test]
fn stacks(rt: HostRuntime) -> Result<(), Fail> {
    let parish = worked_parish(rt.alloc())?;
    let lots = [1, 0, 0, 2];
    tells(&rt, &Bare, &parish, &lots, 0, &[0, 0, 0, 0])?;
    tells(&rt, &Decided, &parish, &lots, 1, &[0, 0, 0, 1])?;
    tells(&rt, &Flow(Bare), &parish, &lots, 2, &[1, 1, 1, 1])?;
    tells(&rt, &Flow(Decided), &parish, &lots, 2, &[1, 1, 1, 1])?;
    tells(&rt, &Flow(Flow(Bare)), &parish, &lots, 2, &[1, 1, 1, 1])?;
    tells(&rt, &Flow(Flow(Decided)), &parish, &lots, 2, &[1, 1, 1, 1])
}

// Where no household is set, or none in one of the lots, nothing flows.
#[test]
fn one_group_empty(rt: HostRuntime) -> Result<(), Fail> {
    let parish = worked_parish(rt.alloc())?;
    let none = [0; 4];
    tells(&rt, &Flow(Bare), &parish, &[0, 0, 0, 0], 0, &none)?;
    tells(&rt, &Flow(Bare), &parish, &[1, 0, 1, 0], 0, &none)?;
    tells(&rt, &Flow(Bare), &parish, &[0, 2, 0, 2], 0, &none)?;
    tells(&rt, &Flow(Decided), &parish, &[0, 0, 0, 0], 0, &none)?;
    tells(&rt, &Flow(Decided), &parish, &[1, 1, 1, 1], 0, &none)?;
    tells(&rt, &Flow(Decided), &parish, &[2, 2, 2, 2], 0, &none)
}

// Where every household is set, what flows is what is decided.
#[test]
fn everything_set(rt: HostRuntime) -> Result<(), Fail> {
    let parish = worked_parish(rt.alloc())?;
    tells(&rt, &Flow(Bare), &parish, &[1, 1, 2, 2], 2, &[0, 1, 0, 1])?;
    tells(
        &rt,
        &Flow(Decided),
        &parish,
        &[1, 1, 2, 2],
        2,
        &[0, 1, 0, 1],
    )?;
    tells(&rt, &Flow(Bare), &parish, &[1, 2, 1, 2], 10, &[4, 1, 4, 1])?;
    tells(
        &rt,
        &Flow(Decided),
        &parish,
        &[2, 1, 2, 1],
        10,
        &[4, 1, 4, 1],
    )
}

// Two links of one pair are two ways.
#[test]
fn parallel_links(rt: HostRuntime) -> Result<(), Fail> {
    let links = [(0, 1, 3), (1, 0, 5), (1, 2, 6), (2, 1, 1)];
    let parish = parish_of(rt.alloc(), 3, &links)?;
    tells(&rt, &Flow(Bare), &parish, &[1, 0, 2], 7, &[3, 4, 6, 1])?;
    tells(&rt, &Flow(Bare), &parish, &[2, 0, 1], 7, &[3, 4, 6, 1])?;
    tells(&rt, &Flow(Bare), &parish, &[1, 2, 0], 8, &[3, 5, 0, 0])?;
    tells(&rt, &Flow(Decided), &parish, &[1, 2, 2], 8, &[3, 5, 0, 0])
}

// The shortest path from 0 to 3 goes over 1 and 2. Yet 2 can flow: over 1, 6 and 7, and over 4, 5 and 2. So what went from 1
// to 2 is sent back, and that link is not charged.
#[test]
fn sent_back(rt: HostRuntime) -> Result<(), Fail> {
    let links = [
        (0, 1, 1),
        (1, 2, 1),
        (2, 3, 1),
        (0, 4, 1),
        (4, 5, 1),
        (5, 2, 1),
        (1, 6, 1),
        (6, 7, 1),
        (7, 3, 1),
    ];
    let parish = parish_of(rt.alloc(), 8, &links)?;
    let lots = [1, 0, 0, 2, 0, 0, 0, 0];
    tells(
        &rt,
        &Flow(Bare),
        &parish,
        &lots,
        2,
        &[1, 0, 1, 1, 1, 1, 1, 1, 1],
    )
}

// The link between 0 and 2 is decided, so over decided it is charged whole and carries nothing more.
#[test]
fn charged_below(rt: HostRuntime) -> Result<(), Fail> {
    let links = [(0, 2, 3), (0, 1, 5), (1, 2, 4)];
    let parish = parish_of(rt.alloc(), 3, &links)?;
    tells(&rt, &Flow(Bare), &parish, &[1, 0, 2], 7, &[3, 4, 4])?;
    tells(&rt, &Flow(Decided), &parish, &[1, 0, 2], 7, &[3, 4, 4])?;
    tells(
        &rt,
        &Flow(Flow(Decided)),
        &parish,
        &[1, 0, 2],
        7,
        &[3, 4, 4],
    )?;
    tells(&rt, &Flow(Decided), &parish, &[1, 1, 2], 7, &[3, 0, 4])
}
