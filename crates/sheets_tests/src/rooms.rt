// The largest parish, and one record more.
use super::cases::run_cases;
use std::test::Fail;

const LARGEST: &str = "\
the largest|weight,lot$%9999,-$|from,to,strength$&127,126,1$||128,1024,1279999,640000
";

#[test]
fn largest(rt: HostRuntime) -> Result<(), Fail> {
    run_cases(&rt, rt.alloc(), LARGEST, 1)
}

const ROOMS: &str = "\
a household too many|weight,lot$%10000,B$0,-$|from,to,strength$|0,-|8,1,130,0
a household too many before a link too many|weight,lot$%10000,B$0,-$|from,to,strength$&0,127,1000$0,1,1$|0,-|8,1,130,0
a weight above the most before a full parish|weight,lot$%10000,B$10001,-$|from,to,strength$|10001|5,1,130,1
a wrong lot before a full parish|weight,lot$%10000,B$0,C$|from,to,strength$|C|11,1,130,2
a wrong count of a household's fields before a full parish|weight,lot$%10000,B$0$|from,to,strength$|0|10,1,130,0
no byte 10 after a household before a full parish|weight,lot$%10000,B$0,-|from,to,strength$|0,-|10,1,130,0
a link to a household that is not yet there|weight,lot$%|from,to,strength$0,127,1000$|127|6,2,2,2
a link too many|weight,lot$%10000,B$|from,to,strength$&0,127,1000$0,1,1$|0,1,1|8,2,1026,0
a strength of 0 before a full parish|weight,lot$%10000,B$|from,to,strength$&0,127,1000$0,1,0$|0|5,2,1026,3
no first household before a full parish|weight,lot$%10000,B$|from,to,strength$&0,127,1000$128,1,1$|128|6,2,1026,1
no second household before a full parish|weight,lot$%10000,B$|from,to,strength$&0,127,1000$0,128,1$|128|6,2,1026,2
a link to itself before a full parish|weight,lot$%10000,B$|from,to,strength$&0,127,1000$127,127,1$|127|7,2,1026,2
a wrong number before a full parish|weight,lot$%10000,B$|from,to,strength$&0,127,1000$x,1,1$|x|11,2,1026,1
a wrong count of a link's fields before a full parish|weight,lot$%10000,B$|from,to,strength$&0,127,1000$0,1$|0,1|10,2,1026,0
no byte 10 after a link before a full parish|weight,lot$%10000,B$|from,to,strength$&0,127,1000$0,1,1|0,1,1|10,2,1026,0
";

#[test]
fn one_too_many(rt: HostRuntime) -> Result<(), Fail> {
    run_cases(&rt, rt.alloc(), ROOMS, 15)
}
