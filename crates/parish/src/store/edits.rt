// How a parish is made and changed. Only making one can want memory.
ghost use Rattle.std.specs.Prelude.{◌≡◌, length, IfOk};
ghost use Rattle.parish.specs.Model.{no_model, with_household, with_link, with_pin};
ghost use Rattle.parish.specs.Edits.{Edited, household_table, link_table, pin_table};
ghost use Rattle.parish.specs.View.{view};

use super::super::items::{Household, Link, Lot};
use super::super::limits::{MOST_HOUSEHOLDS, MOST_LINKS, MOST_STRENGTH, MOST_WEIGHT};
use super::super::refusals::Refusal;
use super::Parish;
use std::alloc::{AllocError, Global};

impl Parish {
    // A parish of no household, with room for all that it may come to hold.
    pub fn new(heap: Global) -> Result<Parish, AllocError>
        ensures { IfOk result (λ p. view p ≡ no_model) }
    {
        let households = Vec::with_capacity(heap, MOST_HOUSEHOLDS)?;
        let links = Vec::with_capacity(heap, MOST_LINKS)?;
        Ok(Parish { households, links })
    }

    // Adds a household at the end, and answers its number.
    pub fn add_household(&mut self, weight: u32, pin: Option<Lot>) -> Result<usize, Refusal>
        ensures { Edited (household_table (view self.old) weight) (length (view self.old).households)
            (view self.old) (with_household (view self.old) (record { weight = weight; pin = pin })) (view self.new) result }
    {
        if weight > MOST_WEIGHT {
            return Err(Refusal::OutsideLimits);
        }
        let number = self.households.len();
        if number >= MOST_HOUSEHOLDS {
            return Err(Refusal::ParishFull);
        }
        self.households.push_reserved(Household { weight, pin });
        Ok(number)
    }

    // Adds a link at the end, and answers its number.
    pub fn add_link(&mut self, from: usize, to: usize, strength: u32) -> Result<usize, Refusal>
        ensures { Edited (link_table (view self.old) (record { from = from; to = to; strength = strength })) (length (view self.old).links)
            (view self.old) (with_link (view self.old) (record { from = from; to = to; strength = strength })) (view self.new) result }
    {
        if !(1..=MOST_STRENGTH).contains(&strength) {
            return Err(Refusal::OutsideLimits);
        }
        let count = self.households.len();
        if from >= count || to >= count {
            return Err(Refusal::NoHousehold);
        }
        if from == to {
            return Err(Refusal::SelfLink);
        }
        let number = self.links.len();
        if number >= MOST_LINKS {
            return Err(Refusal::ParishFull);
        }
        self.links.push_reserved(Link { from, to, strength });
        Ok(number)
    }

    // Replaces the pin of a household.
    pub fn set_pin(&mut self, household: usize, pin: Option<Lot>) -> Result<(), Refusal>
        ensures { Edited (pin_table (view self.old) household) tt
            (view self.old) (with_pin (view self.old) household pin) (view self.new) result }
    {
        if household >= self.households.len() {
            return Err(Refusal::NoHousehold);
        }
        self.households[household].pin = pin;
        Ok(())
    }

    // Takes every household and every link out.
    pub fn clear(&mut self)
        ensures { view self.new ≡ no_model }
    {
        self.links.clear();
        self.households.clear();
    }
}
