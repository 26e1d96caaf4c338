// What can be reported, and how each of it reads.
ghost use Rattle.std.specs.Prelude.{ℕ, List};
ghost use Rattle.report.specs.Reports.{Written};
ghost use Rattle.report.specs.Texts.{summary_text, fault_text};

use super::rows::write_row;
use faults::LoadFault;
use parish::Refusal;

pub trait Report {
    // The bytes of the report.
    ghost text: { Self → List ℕ };

    // Writes the report at the front of `out` and answers its length. Where `out` is too short, it refuses and writes nothing.
    fn report(&self, out: &mut [u8]) -> Result<usize, Refusal>
        ensures { Written (text self.now) out.old out.new result };
}

// A parish in four numbers.
#[derive(Clone, Copy, PartialEq, Eq, Debug)]
pub struct Summary {
    pub households: usize,
    pub links: usize,
    pub weight: u32,
    pub cap: u32,
}

impl Report for Summary {
    ghost text = { summary_text };

    fn report(&self, out: &mut [u8]) -> Result<usize, Refusal> {
        write_row(
            out,
            "households,links,weight,cap\n",
            [
                self.households,
                self.links,
                // By `as`, here and below: std has no `From` of 32 bits for a `usize`.
                self.weight as usize,
                self.cap as usize,
            ],
        )
    }
}

impl Report for LoadFault {
    ghost text = { fault_text };

    fn report(&self, out: &mut [u8]) -> Result<usize, Refusal> {
        write_row(
            out,
            "refused,sheet,line,field\n",
            [
                u32::from(self.refusal()) as usize,
                self.sheet() as usize,
                self.line(),
                self.field(),
            ],
        )
    }
}
