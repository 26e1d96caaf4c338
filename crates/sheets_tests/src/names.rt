// The names line of each sheet.
use super::cases::run_cases;
use std::test::Fail;

const HOUSEHOLDS_NAMES: &str = "\
empty||=||9,1,1,0
no byte 10|weight,lot|=|weight,lot|9,1,1,0
byte 10 alone|$|=||9,1,1,0
an empty line before the names|$weight,lot$3,A$|=||9,1,1,0
no names|3,A$2,-$|=|3,A|9,1,1,0
the names of the other sheet|from,to,strength$0,1,4$1,2,1$2,3,4$0,3,1$|=|from,to,strength|9,1,1,0
names in the other order|lot,weight$A,3$|=|lot,weight|9,1,1,0
first letter|Weight,lot$3,A$|=|Weight,lot|9,1,1,0
last letter|weight,lou$3,A$|=|weight,lou|9,1,1,0
a letter too few|weight,lo$3,A$|=|weight,lo|9,1,1,0
a letter too many|weight,lots$3,A$|=|weight,lots|9,1,1,0
a third name|weight,lot,$3,A$|=|weight,lot,|9,1,1,0
one name|weight$3,A$|=|weight|9,1,1,0
a space|weight, lot$3,A$|=|weight, lot|9,1,1,0
byte 13 before byte 10|weight,lot^$3,A^$|=|weight,lot^|9,1,1,0
byte 13 for byte 10|weight,lot^3,A^|=|weight,lot^3,A^|9,1,1,0
a mark of the byte order|\u{feff}weight,lot$3,A$|=|\u{feff}weight,lot|9,1,1,0
a zero byte|weight,lot#$3,A$|=|weight,lot#|9,1,1,0
";

#[test]
fn names_of_households(rt: HostRuntime) -> Result<(), Fail> {
    run_cases(&rt, rt.alloc(), HOUSEHOLDS_NAMES, 18)
}

const LINKS_NAMES: &str = "\
empty|=|||9,2,1,0
no byte 10|=|from,to,strength|from,to,strength|9,2,1,0
byte 10 alone|=|$||9,2,1,0
an empty line before the names|=|$from,to,strength$0,1,4$||9,2,1,0
no names|=|0,1,4$|0,1,4|9,2,1,0
the names of the other sheet|=|weight,lot$3,A$2,-$2,-$3,-$|weight,lot|9,2,1,0
names in another order|=|to,from,strength$0,1,4$|to,from,strength|9,2,1,0
first letter|=|From,to,strength$0,1,4$|From,to,strength|9,2,1,0
last letter|=|from,to,strengtH$0,1,4$|from,to,strengtH|9,2,1,0
a letter too few|=|from,to,strengt$0,1,4$|from,to,strengt|9,2,1,0
a letter too many|=|from,to,strengths$0,1,4$|from,to,strengths|9,2,1,0
a fourth name|=|from,to,strength,$0,1,4$|from,to,strength,|9,2,1,0
two names|=|from,to$0,1$|from,to|9,2,1,0
byte 13 before byte 10|=|from,to,strength^$0,1,4^$|from,to,strength^|9,2,1,0
";

#[test]
fn names_of_links(rt: HostRuntime) -> Result<(), Fail> {
    run_cases(&rt, rt.alloc(), LINKS_NAMES, 14)
}
