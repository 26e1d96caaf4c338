// A parish, written out as its two sheets.
use parish::{Household, Link, Lot};
use std::fmt;

#[derive(Clone, Copy)]
pub(super) struct HouseholdsSheet<'a>(pub &'a [Household]);

impl fmt::Display for HouseholdsSheet<'_> {
    fn fmt<W: fmt::Write>(&self, f: &mut fmt::Formatter<W>) -> fmt::Result {
        writeln!(f, "weight,lot")?;
        for household in self.0 {
            let weight = household.weight;
            let lot = match household.pin {
                Some(Lot::A) => 'A',
                Some(Lot::B) => 'B',
                None => '-',
            };
            writeln!(f, "{weight},{lot}")?;
        }
        Ok(())
    }
}

#[derive(Clone, Copy)]
pub(super) struct LinksSheet<'a>(pub &'a [Link]);

impl fmt::Display for LinksSheet<'_> {
    fn fmt<W: fmt::Write>(&self, f: &mut fmt::Formatter<W>) -> fmt::Result {
        writeln!(f, "from,to,strength")?;
        for link in self.0 {
            writeln!(f, "{},{},{}", link.from, link.to, link.strength)?;
        }
        Ok(())
    }
}
