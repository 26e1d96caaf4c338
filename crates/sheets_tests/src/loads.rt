// Loads that are not refused.
use super::cases::{HOUSEHOLDS, LINKS, run_cases};
use parish::{Parish, Refusal};
use std::process::Abort;
use std::test::Fail;

const WORKED: &str = "\
the worked parish|=|=||4,4,10,5
";

#[test]
fn worked(rt: HostRuntime) -> Result<(), Fail> {
    run_cases(&rt, rt.alloc(), WORKED, 1)
}

#[test]
fn caps(rt: HostRuntime) -> Result<(), Fail> {
    let heap = rt.alloc();
    let mut parish = Parish::new(heap)?;
    let mut spare = Parish::new(heap)?;
    assert_eq!(rt; parish.weight_cap(1_000), Ok(0));
    sheets::read(&mut parish, &mut spare, HOUSEHOLDS, LINKS)?;
    check_caps(&rt, &parish);
    Ok(())
}

// The worked parish weighs 10.
fn check_caps(rt: &impl Abort, parish: &Parish) {
    let caps = [
        parish.weight_cap(0),
        parish.weight_cap(50),
        parish.weight_cap(199),
        parish.weight_cap(200),
        parish.weight_cap(1_000),
        parish.weight_cap(1_001),
        parish.weight_cap(u32::MAX),
    ];
    let outside = Err(Refusal::OutsideLimits);
    assert_eq!(rt;
        caps,
        [Ok(5), Ok(5), Ok(5), Ok(6), Ok(10), outside, outside]
    );
}

const LOADS: &str = "\
names alone|weight,lot$|from,to,strength$||0,0,0,0
one household|weight,lot$0,-$|from,to,strength$||1,0,0,0
each lot|weight,lot$1,A$2,B$3,-$|from,to,strength$||3,0,6,3
the least and the most weight|weight,lot$0,B$10000,A$|from,to,strength$||2,0,10000,5000
numbers of one to five digits|weight,lot$9,-$10,-$109,-$9990,-$10000,-$|from,to,strength$||5,0,20118,10059
the least and the most strength|weight,lot$1,-$1,-$|from,to,strength$0,1,1$0,1,1000$||2,2,2,1
both ways and twice|weight,lot$1,-$1,-$|from,to,strength$0,1,5$1,0,5$0,1,5$||2,3,2,1
the first and the last household|weight,lot$1,-$1,-$1,-$|from,to,strength$0,2,1$2,0,1$1,2,7$||3,3,3,2
";

// Each load replaces the one before.
#[test]
fn loads(rt: HostRuntime) -> Result<(), Fail> {
    run_cases(&rt, rt.alloc(), LOADS, 8)
}
