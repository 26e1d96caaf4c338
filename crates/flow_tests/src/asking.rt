// Making a parish, and asking a bound about it.
use bounds::LowerBound;
use parish::{MOST_LINKS, Parish, Refusal};
use std::alloc::Global;
use std::process::Abort;
use std::test::Fail;

// A parish of so many households, and of links given by their ends and strengths.
pub(super) fn parish_of(
    heap: Global,
    households: usize,
    links: &[(usize, usize, u32)],
) -> Result<Parish, Fail> {
    let mut parish = Parish::new(heap)?;
    for _ in 0..households {
        parish.add_household(1, None)?;
    }
    for (from, to, strength) in links {
        parish.add_link(*from, *to, *strength)?;
    }
    Ok(parish)
}

// That a bound tells a number and charges, whatever the cap is.
pub(super) fn tells<B: LowerBound>(
    rt: &impl Abort,
    bound: &B,
    parish: &Parish,
    lots: &[u8],
    number: u32,
    charges: &[u32],
) -> Result<(), Fail> {
    // Cut out of the most that there can be, as a caller of a bound would.
    assert!(rt; charges.len() <= MOST_LINKS);
    for (cap, case) in [(0, "at cap 0"), (u32::MAX, "at the largest cap")] {
        let mut scratch = [9; MOST_LINKS];
        let told = &mut scratch[0..charges.len()];
        assert_eq!(rt; bound.consult(parish, cap, lots, told)?, number, "{case}");
        assert!(rt; &told[..] == charges, "{case}: charges");
    }
    Ok(())
}

// That a bound refuses a list of lots with so many charges, and leaves the charges.
pub(super) fn refuses<B: LowerBound>(
    rt: &impl Abort,
    bound: &B,
    parish: &Parish,
    lots: &[u8],
    count: usize,
    case: &str,
) -> Result<(), Fail> {
    // What lies past the list is looked at too.
    assert!(rt; count <= 8);
    let mut scratch = [9; 8];
    let told = &mut scratch[0..count];
    assert_eq!(rt;
        bound.consult(parish, 5, lots, told),
        Err(Refusal::WrongList),
        "{case}"
    );
    assert!(rt; scratch == [9; 8], "{case}: charges");
    Ok(())
}
