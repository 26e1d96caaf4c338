// Lines with a wrong count of fields, or with no byte 10 at their end.
use super::cases::run_cases;
use std::test::Fail;

const HOUSEHOLDS_COUNTS: &str = "\
one field on the first line|weight,lot$3$2,-$|=|3|10,1,2,0
one field on the last line|weight,lot$3,A$2,-$2$|=|2|10,1,4,0
three fields on the first line|weight,lot$3,A,$2,-$|=|3,A,|10,1,2,0
three fields on the last line|weight,lot$3,A$2,-$2,-,-$|=|2,-,-|10,1,4,0
an empty line first|weight,lot$$3,A$|=||10,1,2,0
an empty line between|weight,lot$3,A$$2,-$|=||10,1,3,0
an empty line last|weight,lot$3,A$$|=||10,1,3,0
an empty line alone|weight,lot$$|=||10,1,2,0
commas alone|weight,lot$,,$|=|,,|10,1,2,0
many commas|weight,lot$,,,,,,,,$|=|,,,,,,,,|10,1,2,0
a semicolon for the comma|weight,lot$3;A$|=|3;A|10,1,2,0
byte 13 alone on a line|weight,lot$3,A$^$|=|^|10,1,3,0
byte 13 for byte 10|weight,lot$3,A^2,-^|=|3,A^2,-^|10,1,2,0
no byte 10 on the only line|weight,lot$3,A|=|3,A|10,1,2,0
no byte 10 on the last line|weight,lot$3,A$2,-|=|2,-|10,1,3,0
one digit and no byte 10|weight,lot$3,A$2|=|2|10,1,3,0
one comma and no byte 10|weight,lot$3,A$,|=|,|10,1,3,0
three fields and no byte 10|weight,lot$3,A$2,-,-|=|2,-,-|10,1,3,0
";

#[test]
fn counts_of_households(rt: HostRuntime) -> Result<(), Fail> {
    run_cases(&rt, rt.alloc(), HOUSEHOLDS_COUNTS, 18)
}

const LINKS_COUNTS: &str = "\
two fields on the first line|=|from,to,strength$0,1$1,2,1$|0,1|10,2,2,0
two fields on the last line|=|from,to,strength$0,1,4$1,2,1$2,3$|2,3|10,2,4,0
four fields on the first line|=|from,to,strength$0,1,4,$1,2,1$|0,1,4,|10,2,2,0
four fields on the last line|=|from,to,strength$0,1,4$1,2,1$2,3,4,5$|2,3,4,5|10,2,4,0
one field|=|from,to,strength$0$|0|10,2,2,0
an empty line first|=|from,to,strength$$0,1,4$||10,2,2,0
an empty line between|=|from,to,strength$0,1,4$$1,2,1$||10,2,3,0
an empty line last|=|from,to,strength$0,1,4$$||10,2,3,0
one comma alone|=|from,to,strength$,$|,|10,2,2,0
three commas alone|=|from,to,strength$,,,$|,,,|10,2,2,0
no byte 10 on the only line|=|from,to,strength$0,1,4|0,1,4|10,2,2,0
no byte 10 on the last line|=|from,to,strength$0,1,4$1,2,1|1,2,1|10,2,3,0
one digit and no byte 10|=|from,to,strength$0,1,4$1|1|10,2,3,0
byte 13 and no byte 10|=|from,to,strength$0,1,4$^|^|10,2,3,0
";

#[test]
fn counts_of_links(rt: HostRuntime) -> Result<(), Fail> {
    run_cases(&rt, rt.alloc(), LINKS_COUNTS, 14)
}
