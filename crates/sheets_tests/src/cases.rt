// A case is a line of a table: what it is, two sheets, a spot, and the numbers that are told, with `|` between them.
// A load that is refused tells the numbers of its fault, and one that is not those of its summary.
//
// In a sheet and in a spot `$` stands for byte 10, `^` for 13, `#` for 0, `*` for 255, `=` for the worked sheet, `%` for
// 127 households and `&` for 1023 links.
use super::runner::Runner;
use std::alloc::{AllocError, Global};
use std::process::Abort;
use std::test::Fail;

// The worked parish.
pub const HOUSEHOLDS: &[u8] = b"weight,lot\n3,A\n2,-\n2,-\n3,-\n";

pub const LINKS: &[u8] = b"from,to,strength\n0,1,4\n1,2,1\n2,3,4\n0,3,1\n";

#[derive(Clone, Copy)]
pub(super) struct Case<'a> {
    pub line: &'a str,
    pub what: &'a str,
    pub households: &'a str,
    pub links: &'a str,
    pub spot: &'a str,
    pub told: &'a str,
}

// Runs each case of a table in turn, from the worked parish on. The table has `count` of them.
pub(super) fn run_cases(
    rt: &impl Abort,
    heap: Global,
    table: &str,
    count: usize,
) -> Result<(), Fail> {
    let mut runner = Runner::new(rt, heap)?;
    for line in table.lines() {
        runner.run(case_of(line).expect(rt, "a line of five fields"))?;
    }
    assert_eq!(rt; table.lines().count(), count, "cases");
    Ok(())
}

// The case that a line of five fields tells.
fn case_of(line: &str) -> Option<Case<'_>> {
    let mut fields = line.split('|');
    let case = Case {
        line,
        what: fields.next()?,
        households: fields.next()?,
        links: fields.next()?,
        spot: fields.next()?,
        told: fields.next()?,
    };
    fields.next().is_none().then_some(case)
}

// The bytes that a text with marks stands for.
pub(super) fn bytes_of(heap: Global, text: &str, worked: &[u8]) -> Result<Vec<u8>, AllocError> {
    let mut bytes = Vec::new(heap);
    for byte in text.bytes() {
        put(heap, &mut bytes, byte, worked)?;
    }
    Ok(bytes)
}

fn put(heap: Global, bytes: &mut Vec<u8>, byte: u8, worked: &[u8]) -> Result<(), AllocError> {
    match byte {
        b'$' => bytes.extend_from_slice(b"\n"),
        b'^' => bytes.extend_from_slice(b"\r"),
        b'#' => bytes.extend_from_slice(b"\x00"),
        b'*' => bytes.extend_from_slice(b"\xff"),
        b'=' => bytes.extend_from_slice(worked),
        b'%' => bytes.extend_from_slice(&b"10000,B\n".repeat(heap, 127)?),
        b'&' => bytes.extend_from_slice(&b"0,127,1000\n".repeat(heap, 1023)?),
        _ => bytes.extend_from_slice(&[byte]),
    }
}
