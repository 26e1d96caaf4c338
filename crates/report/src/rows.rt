// A report of two lines: the names of four numbers, and the numbers.
ghost use Rattle.std.specs.Prelude.{◌≡◌};
ghost use Rattle.report.specs.Reports.{Written};
ghost use Rattle.report.specs.Texts.{row_text};

use arrayvec::ArrayString;
use itoa::Buffer;
use parish::Refusal;

// Room for four numbers of up to 20 digits, each with a byte after it.
const ROOM: usize = 84;

// Writes a report at the front of `out`, where it fits, and answers its length; `names` is its whole first line.
pub(crate) fn write_row(out: &mut [u8], names: &str, numbers: [usize; 4]) -> Result<usize, Refusal>
    ensures { Written (row_text names.now numbers) out.old out.new result }
{
    // Not by `write!`, which promises nothing of when it succeeds.
    let mut line = ArrayString::<ROOM>::new();
    let mut digits = Buffer::new();
    for (k, number) in numbers.iter().enumerate() {
        if k > 0 {
            line.push(',');
        }
        line.push_str(digits.format(*number));
    }
    line.push('\n');
    let length = names.len() + line.len();
    if out.len() < length {
        return Err(Refusal::WrongList);
    }
    out[..names.len()].copy_from_slice(names.as_bytes());
    out[names.len()..length].copy_from_slice(line.as_bytes());
    Ok(length)
}
