// Records that a parish refuses, one full apart.
use super::cases::run_cases;
use std::test::Fail;

const LIMITS: &str = "\
a weight above the most on the first line|weight,lot$10001,A$2,-$|=|10001|5,1,2,1
a weight above the most on the last line|weight,lot$3,A$2,-$10001,-$|=|10001|5,1,4,1
the least weight of six digits|weight,lot$100000,-$|=|100000|5,1,2,1
the most of seven digits as a weight|weight,lot$9999999,B$|=|9999999|5,1,2,1
no strength on the first line|=|from,to,strength$0,1,0$1,2,1$|0|5,2,2,3
no strength on the last line|=|from,to,strength$0,1,4$1,2,1$2,3,0$|0|5,2,4,3
a strength above the most on the first line|=|from,to,strength$0,1,1001$1,2,1$|1001|5,2,2,3
a strength above the most on the last line|=|from,to,strength$0,1,4$1,2,1$2,3,1001$|1001|5,2,4,3
the most of seven digits as a strength|=|from,to,strength$0,1,9999999$|9999999|5,2,2,3
";

#[test]
fn limits_of_numbers(rt: HostRuntime) -> Result<(), Fail> {
    run_cases(&rt, rt.alloc(), LIMITS, 9)
}

const ENDS: &str = "\
the first end is no household on the first line|=|from,to,strength$4,1,4$1,2,1$|4|6,2,2,1
the first end is no household on the last line|=|from,to,strength$0,1,4$1,2,1$4,3,4$|4|6,2,4,1
the second end is no household on the first line|=|from,to,strength$0,4,4$1,2,1$|4|6,2,2,2
the second end is no household on the last line|=|from,to,strength$0,1,4$1,2,1$2,4,4$|4|6,2,4,2
neither end is a household|=|from,to,strength$5,4,4$|5|6,2,2,1
the most of seven digits as the first end|=|from,to,strength$9999999,1,4$|9999999|6,2,2,1
the most of seven digits as the second end|=|from,to,strength$0,9999999,4$|9999999|6,2,2,2
a parish of no household|weight,lot$|from,to,strength$0,1,4$|0|6,2,2,1
a parish of one household|weight,lot$3,A$|from,to,strength$0,1,4$|1|6,2,2,2
a link of the first household to itself|=|from,to,strength$0,0,4$1,2,1$|0|7,2,2,2
a link of the last household to itself|=|from,to,strength$0,1,4$1,2,1$3,3,4$|3|7,2,4,2
a link to itself in a parish of one household|weight,lot$0,-$|from,to,strength$0,0,1$|0|7,2,2,2
";

#[test]
fn ends_of_links(rt: HostRuntime) -> Result<(), Fail> {
    run_cases(&rt, rt.alloc(), ENDS, 12)
}
