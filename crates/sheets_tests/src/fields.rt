// Fields that are neither number nor lot letter as wanted.
use super::cases::run_cases;
use std::test::Fail;

const WEIGHTS: &str = "\
no weight|weight,lot$,A$|=||11,1,2,1
two zeros|weight,lot$00,A$|=|00|11,1,2,1
a zero before a digit|weight,lot$01,A$|=|01|11,1,2,1
a zero before digits|weight,lot$010,A$|=|010|11,1,2,1
eight digits|weight,lot$12345678,A$|=|12345678|11,1,2,1
the least of eight digits|weight,lot$10000000,A$|=|10000000|11,1,2,1
eight zeros|weight,lot$00000000,A$|=|00000000|11,1,2,1
twenty digits|weight,lot$18446744073709551617,A$|=|18446744073709551617|11,1,2,1
a minus sign|weight,lot$-1,A$|=|-1|11,1,2,1
a plus sign|weight,lot$+1,A$|=|+1|11,1,2,1
a space before|weight,lot$ 1,A$|=| 1|11,1,2,1
a space after|weight,lot$1 ,A$|=|1 |11,1,2,1
a point|weight,lot$1.0,A$|=|1.0|11,1,2,1
a letter|weight,lot$x,A$|=|x|11,1,2,1
a letter after a digit|weight,lot$1e3,A$|=|1e3|11,1,2,1
the byte below 0|weight,lot$/,A$|=|/|11,1,2,1
the byte above 9|weight,lot$:,A$|=|:|11,1,2,1
the byte below 0 in the middle|weight,lot$1/2,A$|=|1/2|11,1,2,1
the byte above 9 at the end|weight,lot$12:,A$|=|12:|11,1,2,1
a zero byte|weight,lot$#,A$|=|#|11,1,2,1
byte 255 at the seventh place|weight,lot$123456*,A$|=|123456*|11,1,2,1
byte 13|weight,lot$1^,A$|=|1^|11,1,2,1
a lot|weight,lot$A,A$|=|A|11,1,2,1
on the last line|weight,lot$3,A$2,-$x,-$|=|x|11,1,4,1
weight and lot are empty|weight,lot$,$|=||11,1,2,1
weight and lot are wrong|weight,lot$x,y$|=|x|11,1,2,1
the names again|weight,lot$weight,lot$|=|weight|11,1,2,1
";

#[test]
fn weight_fields(rt: HostRuntime) -> Result<(), Fail> {
    run_cases(&rt, rt.alloc(), WEIGHTS, 27)
}

const LOTS: &str = "\
no lot|weight,lot$3,$|=||11,1,2,2
another letter|weight,lot$3,C$|=|C|11,1,2,2
the byte below A|weight,lot$3,@$|=|@|11,1,2,2
a small letter|weight,lot$3,a$|=|a|11,1,2,2
two letters|weight,lot$3,AB$|=|AB|11,1,2,2
a letter twice|weight,lot$3,AA$|=|AA|11,1,2,2
two dashes|weight,lot$3,--$|=|--|11,1,2,2
a digit|weight,lot$3,1$|=|1|11,1,2,2
a space before|weight,lot$3, A$|=| A|11,1,2,2
a space after|weight,lot$3,A $|=|A |11,1,2,2
byte 13 before byte 10|weight,lot$3,A^$|=|A^|11,1,2,2
a zero byte|weight,lot$3,#$|=|#|11,1,2,2
byte 255|weight,lot$3,*$|=|*|11,1,2,2
on the last line|weight,lot$3,A$2,-$2,C$|=|C|11,1,4,2
";

#[test]
fn lot_fields(rt: HostRuntime) -> Result<(), Fail> {
    run_cases(&rt, rt.alloc(), LOTS, 14)
}

const LINK_FIELDS: &str = "\
no first end|=|from,to,strength$,1,4$||11,2,2,1
no second end|=|from,to,strength$0,,4$||11,2,2,2
no strength|=|from,to,strength$0,1,$||11,2,2,3
two commas alone|=|from,to,strength$,,$||11,2,2,1
the first end is a letter|=|from,to,strength$x,1,4$|x|11,2,2,1
the second end is a letter|=|from,to,strength$0,x,4$|x|11,2,2,2
the strength is a letter|=|from,to,strength$0,1,x$|x|11,2,2,3
the last two are letters|=|from,to,strength$0,x,y$|x|11,2,2,2
the first and the last are letters|=|from,to,strength$x,1,y$|x|11,2,2,1
all are letters|=|from,to,strength$A,B,-$|A|11,2,2,1
two zeros for the first end|=|from,to,strength$00,1,4$|00|11,2,2,1
a zero before the second end|=|from,to,strength$0,01,4$|01|11,2,2,2
a zero before the strength|=|from,to,strength$0,1,04$|04|11,2,2,3
eight digits for the first end|=|from,to,strength$10000000,1,4$|10000000|11,2,2,1
eight digits for the second end|=|from,to,strength$0,10000000,4$|10000000|11,2,2,2
eight digits for the strength|=|from,to,strength$0,1,10000000$|10000000|11,2,2,3
a minus sign|=|from,to,strength$0,1,-4$|-4|11,2,2,3
a space|=|from,to,strength$0, 1,4$| 1|11,2,2,2
byte 13 before byte 10|=|from,to,strength$0,1,4^$|4^|11,2,2,3
first field of the last line|=|from,to,strength$0,1,4$1,2,1$x,3,4$|x|11,2,4,1
last field of the last line|=|from,to,strength$0,1,4$1,2,1$2,3,x$|x|11,2,4,3
the names again|=|from,to,strength$from,to,strength$|from|11,2,2,1
";

#[test]
fn link_fields(rt: HostRuntime) -> Result<(), Fail> {
    run_cases(&rt, rt.alloc(), LINK_FIELDS, 22)
}
