// The report of two sheets.
ghost use Rattle.std.specs.Prelude.{◌≡◌};
ghost use Rattle.parish.specs.Model.{no_model};
ghost use Rattle.parish.specs.View.{view};
ghost use Rattle.spelling.specs.Loads.{loaded, load_leaves};
ghost use Rattle.report.specs.Parishes.{summary_of, sheets_text};
ghost use Rattle.report.specs.Reports.{Written};

use super::reports::{Report, Summary};
use parish::{Parish, Refusal};
use sheets::read;

// The cap is that at tolerance 0, which no parish refuses.
impl From<&Parish> for Summary {
    ghost from_gives = { λ parish summary. summary ≡ summary_of (view parish.now) };

    fn from(parish: &Parish) -> Summary {
        Summary {
            households: parish.households().len(),
            links: parish.links().len(),
            weight: parish.total_weight(),
            cap: parish.weight_cap(0).unwrap(),
        }
    }
}

// Reads a parish from two sheets, and writes a report of it, or of what is wrong with the sheets, at the front of `out`.
pub fn report_sheets(
    parish: &mut Parish,
    spare: &mut Parish,
    households: &[u8],
    links: &[u8],
    out: &mut [u8],
) -> Result<usize, Refusal>
    ensures written { Written (sheets_text households.now links.now) out.old out.new result }
    ensures leaves { view parish.new ≡ load_leaves (loaded households.now links.now) (view parish.old) }
    ensures scratch { view spare.new ≡ no_model }
{
    match read(parish, spare, households, links) {
        Ok(_) => Summary::from(&*parish).report(out),
        Err(fault) => fault.report(out),
    }
}
