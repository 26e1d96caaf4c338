// The worked cases, and others that an independent enumeration gave, on the definitions of the crates below.
#![tactic(auto)]

ghost use Rattle.std.specs.Prelude.{◌≡◌, IfOk};
ghost use Rattle.parish.specs.View.{view};
ghost use Rattle.cases.specs.Parishes.{worked};
ghost use Rattle.cases.specs.Worked.{WorkedCases};
ghost use Rattle.cases.specs.Flow.{FlowCase};
ghost use Rattle.cases.specs.Enumerated.{EnumeratedCases};
ghost use Rattle.cases.specs.Full.{FullStrengthsDoNotAdd};

use parish::{Lot, Parish};
use std::alloc::{AllocError, Global};

// The worked parish: four households, the first in A, and a ring of links.
pub fn worked_parish(heap: Global) -> Result<Parish, AllocError>
    ensures { IfOk result (λ p. view p ≡ worked) }
{
    let mut parish = Parish::new(heap)?;
    parish.add_household(3, Some(Lot::A)).unwrap();
    parish.add_household(2, None).unwrap();
    parish.add_household(2, None).unwrap();
    parish.add_household(3, None).unwrap();
    parish.add_link(0, 1, 4).unwrap();
    parish.add_link(1, 2, 1).unwrap();
    parish.add_link(2, 3, 4).unwrap();
    parish.add_link(0, 3, 1).unwrap();
    Ok(parish)
}

pub fn worked_cases_hold()
    ensures { WorkedCases }
{}

// The worked case of flow.
pub fn flow_case_holds()
    ensures { FlowCase }
{}

// The values that tools/enumerate.py prints.
pub fn enumerated_cases_hold()
    ensures { EnumeratedCases }
{}

// Two lower bounds may not be added on full strengths.
pub fn full_strengths_do_not_add()
    ensures { FullStrengthsDoNotAdd }
{}

#[cfg(test)]
mod tests {
    use super::worked_parish;
    use bisection::{cost, lot_weights};
    use bounds::{Decided, LowerBound, least_cost};
    use parish::Refusal;
    use std::test::Fail;

    #[test]
    fn measures(rt: HostRuntime) -> Result<(), Fail> {
        let parish = worked_parish(rt.alloc())?;
        assert_eq!(rt; parish.weight_cap(0)?, 5);
        assert_eq!(rt; cost(&parish, &[1, 1, 2, 2])?, 2);
        let weights = lot_weights(&parish, &[1, 1, 2, 0])?;
        assert_eq!(rt; weights.a, 5);
        assert_eq!(rt; weights.b, 2);
        assert_eq!(rt; cost(&parish, &[1, 1, 2]), Err(Refusal::WrongList));
        assert_eq!(rt; cost(&parish, &[1, 1, 2, 3]), Err(Refusal::WrongList));
        Ok(())
    }

    // With 0 in A and 3 in B one link is decided, and two must be cut to part them: added on full strengths that is 3,
    // though a lawful bisection costs 2.
    #[test]
    fn full_strengths_exceed_a_cost(rt: HostRuntime) -> Result<(), Fail> {
        let parish = worked_parish(rt.alloc())?;
        let lots = [1, 0, 0, 2];
        let mut charges = [9; 4];
        let decided = Decided.consult(&parish, 5, &lots, &mut charges)?;
        assert_eq!(rt; decided, 1);
        assert_eq!(rt; charges, [0, 0, 0, 1]);
        assert_eq!(rt; least_cost(&Decided, &parish, 5, &lots)?, 1);
        assert!(rt; decided < 2);
        assert!(rt; 2 + decided > cost(&parish, &[1, 1, 2, 2])?);
        Ok(())
    }
}
