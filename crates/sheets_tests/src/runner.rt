// Runs cases, and checks what is told of each.
use super::cases::{Case, HOUSEHOLDS, LINKS, bytes_of};
use super::made::{made_fault, numbers_of};
use super::written::{HouseholdsSheet, LinksSheet};
use faults::{Layer, LoadFault};
use parish::{Parish, Refusal};
use report::{Report, Summary};
use spelling::Counts;
use std::alloc::Global;
use std::process::Abort;
use std::test::Fail;

// A parish and a spare one, which cases are read into one after another.
#[derive(Drop)]
pub(super) struct Runner<'a, R: Abort> {
    rt: &'a R,
    heap: Global,
    parish: Parish,
    spare: Parish,
}

impl<'a, R: Abort> Runner<'a, R> {
    // Begins with the worked parish.
    pub(super) fn new(rt: &'a R, heap: Global) -> Result<Runner<'a, R>, Fail> {
        let mut parish = Parish::new(heap)?;
        let mut spare = Parish::new(heap)?;
        sheets::read(&mut parish, &mut spare, HOUSEHOLDS, LINKS)?;
        Ok(Runner {
            rt,
            heap,
            parish,
            spare,
        })
    }

    pub(super) fn run(&mut self, case: Case<'_>) -> Result<(), Fail> {
        let households = bytes_of(self.heap, case.households, HOUSEHOLDS)?;
        let links = bytes_of(self.heap, case.links, LINKS)?;
        self.run_sheets(case, &households, &links)
    }

    fn run_sheets(&mut self, case: Case<'_>, households: &[u8], links: &[u8]) -> Result<(), Fail> {
        let loaded = match made_fault(case.what, numbers_of(case.told)) {
            Some(fault) => Err(fault),
            None => sheets::read(&mut self.parish, &mut self.spare, households, links),
        };
        let line = case.line;
        assert!(self.rt;
            self.spare.households().is_empty() && self.spare.links().is_empty(),
            "spare parish: {line}"
        );
        match loaded {
            Ok(counts) => self.check_load(case, counts, households, links),
            Err(fault) => self.check_refused(case, fault, sheets::spot(fault, households, links)),
        }
    }

    // The parish holds what its sheets say, and its summary tells of it.
    fn check_load(
        &self,
        case: Case<'_>,
        counts: Counts,
        households: &[u8],
        links: &[u8],
    ) -> Result<(), Fail> {
        let line = case.line;
        let cap = self.parish.weight_cap(0)?;
        let most = self.parish.weight_cap(1_000)?;
        assert!(self.rt;
            most == cap.wrapping_mul(2),
            "cap with the most slack: {line}"
        );
        let summary = Summary {
            households: counts.households,
            links: counts.links,
            weight: self.parish.total_weight(),
            cap,
        };
        self.check_report(case, "households,links,weight,cap$=$", &summary)?;
        self.check_parish(case, households, links)
    }

    // What is told and reported of a fault, and that the parish is still the worked one.
    fn check_refused(&self, case: Case<'_>, fault: LoadFault, spot: &[u8]) -> Result<(), Fail> {
        self.check_told(case, fault);
        self.check_report(case, "refused,sheet,line,field$=$", &fault)?;
        self.check_spot(case, spot)?;
        self.check_parish(case, HOUSEHOLDS, LINKS)
    }

    fn check_told(&self, case: Case<'_>, fault: LoadFault) {
        let line = case.line;
        let told = [
            // By `as`, here and below: std has no `From` of 32 bits for a `usize`.
            u32::from(fault.refusal()) as usize,
            fault.sheet() as usize,
            fault.line(),
            fault.field(),
        ];
        assert_eq!(self.rt;
            told,
            numbers_of(case.told),
            "number, sheet, line, field: {line}"
        );
        assert_eq!(self.rt; fault.layer(), layer_of(fault), "layer: {line}");
    }

    fn check_report<T: Report>(&self, case: Case<'_>, names: &str, report: &T) -> Result<(), Fail> {
        let line = case.line;
        // A report writes into lent bytes: so many hold any that there is.
        let mut out = [0; 80];
        let length = report.report(&mut out)?;
        let text = bytes_of(self.heap, names, case.told.as_bytes())?;
        assert!(self.rt;
            out.get(..length) == Some(text.as_slice()),
            "report: {line}"
        );
        Ok(())
    }

    fn check_spot(&self, case: Case<'_>, spot: &[u8]) -> Result<(), Fail> {
        let line = case.line;
        let bytes = bytes_of(self.heap, case.spot, b"")?;
        assert!(self.rt; spot == bytes.as_slice(), "spot: {line}");
        Ok(())
    }

    // That the parish, written out, is two sheets.
    fn check_parish(&self, case: Case<'_>, households: &[u8], links: &[u8]) -> Result<(), Fail> {
        let line = case.line;
        let heap = self.heap;
        let text = format!(in heap; "{}", HouseholdsSheet(self.parish.households()))?;
        assert!(self.rt; text.as_bytes() == households, "households: {line}");
        let text = format!(in heap; "{}", LinksSheet(self.parish.links()))?;
        assert!(self.rt; text.as_bytes() == links, "links: {line}");
        Ok(())
    }
}

// The layer that finds a fault.
fn layer_of(fault: LoadFault) -> Layer {
    match fault.refusal() {
        Refusal::WrongNames | Refusal::WrongCount => Layer::Line,
        Refusal::WrongField if fault.place().is_some() => Layer::Field,
        _ => Layer::Parish,
    }
}
