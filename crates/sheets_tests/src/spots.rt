// Faults that no load gave: what is told of them, and where they point.
use super::cases::run_cases;
use std::test::Fail;

const SPOTS: &str = "\
!call|=|=||1,0,0,0
!call|=|=||11,0,0,0
!names|=|=||9,1,0,0
!names|=|=|weight,lot|9,1,1,0
!names|=|=|from,to,strength|9,2,1,0
!names|=|=|0,1,4|9,2,2,0
!count|=|=|3,-|10,1,5,0
!count|=|=||10,1,6,0
!count|=|=||10,1,7,0
!count|=|=||10,2,0,0
!count|=|=|0,3,1|10,2,5,0
!count|=|=||10,2,18446744073709551615,0
!field|=|=||11,1,0,1
!field|=|=|lot|11,1,1,2
!field|=|=|3,A|11,1,2,0
!field|=|=|3|11,1,2,1
!field|=|=|A|11,1,2,2
!field|=|=||11,1,2,3
!field|=|=||11,1,6,1
!field|=|=||11,1,7,1
!field|=|=|4|11,2,2,3
!field|=|=||11,2,5,4
!field|=|=||11,2,5,18446744073709551615
!field|=|=||11,2,18446744073709551615,18446744073709551615
!parish|=|=|2|5,1,3,1
!parish|=|=||5,1,3,3
!parish|=|=|3|6,2,4,2
!parish|=|=|2,3,4|8,2,4,0
!parish|=|=||7,2,9,1
!parish|=|=||7,2,0,0
!parish|=|=|A|1,1,2,2
";

#[test]
fn spots(rt: HostRuntime) -> Result<(), Fail> {
    run_cases(&rt, rt.alloc(), SPOTS, 31)
}

// A sheet that is empty, or whose last line has no byte 10.
const SHORT: &str = "\
!names||=||9,1,1,0
!count||=||10,1,2,0
!names|weight|=|weight|9,1,1,0
!count|weight|=||10,1,2,0
!count|weight$3,A|=|3,A|10,1,2,0
!count|$$|=||10,1,2,0
";

#[test]
fn spots_of_short_sheets(rt: HostRuntime) -> Result<(), Fail> {
    run_cases(&rt, rt.alloc(), SHORT, 6)
}
