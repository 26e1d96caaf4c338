// What can be read of a parish.
ghost use Rattle.std.specs.Prelude.{◌≡◌, ◌≤◌};
ghost use Rattle.parish.specs.View.{view};
ghost use Rattle.parish.specs.Weights.{total_weight, cap_table, cap_at};
ghost use Rattle.parish.specs.Edits.{answered};

use super::super::items::{Household, Link};
use super::super::limits::MOST_TOLERANCE;
use super::super::refusals::Refusal;
use super::Parish;

impl Parish {
    pub fn households(&self) -> &[Household]
        ensures { result.now ≡ (view self.now).households }
    {
        self.households.as_slice()
    }

    pub fn links(&self) -> &[Link]
        ensures { result.now ≡ (view self.now).links }
    {
        self.links.as_slice()
    }

    pub fn total_weight(&self) -> u32
        ensures { result ≡ total_weight (view self.now).households }
    {
        self.households
            .iter()
            .map(|household| household.weight)
            .sum()
    }

    // What a lot may weigh at a tolerance in thousandths.
    pub fn weight_cap(&self, tolerance: u32) -> Result<u32, Refusal>
        ensures { result ≡ answered (cap_table tolerance) (cap_at (total_weight (view self.now).households) tolerance) }
    {
        if tolerance > MOST_TOLERANCE {
            return Err(Refusal::OutsideLimits);
        }
        let half = self.total_weight().div_ceil(2);
        Ok((1000 + tolerance) * half / 1000)
    }
}
