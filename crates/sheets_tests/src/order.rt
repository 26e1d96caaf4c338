// Two faults at once: the first by the order of the tests is given.
use super::cases::run_cases;
use std::test::Fail;

const ORDER: &str = "\
a wrong count before a wrong number|weight,lot$x,A,1$|=|x,A,1|10,1,2,0
a wrong count before a weight above the most|weight,lot$10001$|=|10001|10,1,2,0
no byte 10 before a wrong number|weight,lot$x,A|=|x,A|10,1,2,0
no byte 10 before a weight above the most|weight,lot$10001,A|=|10001,A|10,1,2,0
a wrong lot before a weight above the most|weight,lot$10001,C$|=|C|11,1,2,2
a wrong number before a wrong lot|weight,lot$01,C$|=|01|11,1,2,1
the first of two lines, by its weight|weight,lot$10001,A$x$|=|10001|5,1,2,1
the first of two lines, by its count|weight,lot$3,A$3$10001,A$|=|3|10,1,3,0
the first of two lines, by its lot|weight,lot$3,C$$|=|C|11,1,2,2
the names before a value line|Weight,lot$10001,C$|=|Weight,lot|9,1,1,0
a wrong count before a wrong number|=|from,to,strength$x,1$|x,1|10,2,2,0
a wrong count before a link to itself|=|from,to,strength$0,0$|0,0|10,2,2,0
no byte 10 before no such household|=|from,to,strength$9,9,9|9,9,9|10,2,2,0
a wrong number before a strength outside its limits|=|from,to,strength$0,x,1001$|x|11,2,2,2
a wrong number before no such household|=|from,to,strength$9,1,x$|x|11,2,2,3
a wrong number before a link to itself|=|from,to,strength$0,0,x$|x|11,2,2,3
a strength of 0 before no such household|=|from,to,strength$4,1,0$|0|5,2,2,3
a strength above the most before no such household|=|from,to,strength$0,4,1001$|1001|5,2,2,3
a strength above the most before a link to itself|=|from,to,strength$0,0,1001$|1001|5,2,2,3
no such household before a link to itself|=|from,to,strength$4,4,1$|4|6,2,2,1
the leftmost end that is no household|=|from,to,strength$4,9,1$|4|6,2,2,1
the first of two lines|=|from,to,strength$0,1,4$3,3,1$0,1$|3|7,2,3,2
the names before a value line|=|from;to;strength$0,1,4$|from;to;strength|9,2,1,0
a household before the names of links|weight,lot$3,A$2,C$||C|11,1,3,2
a household before a link|weight,lot$3,A$2,-$10001,-$|from,to,strength$x$|10001|5,1,4,1
no byte 10 after the households before an empty links sheet|weight,lot$3,A$2,-||2,-|10,1,3,0
the names of households before those of links|weight$|from$|weight|9,1,1,0
both sheets empty||||9,1,1,0
sheets in the other order|from,to,strength$0,1,4$1,2,1$2,3,4$0,3,1$|weight,lot$3,A$2,-$2,-$3,-$|from,to,strength|9,1,1,0
";

#[test]
fn order_of_tests(rt: HostRuntime) -> Result<(), Fail> {
    run_cases(&rt, rt.alloc(), ORDER, 29)
}
