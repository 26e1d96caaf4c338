// Faults that no load gave, made of a kind and of the numbers that are told.
use faults::{FieldFault, LineFault, LoadFault, ParishFault, Place, Sheet};
use parish::Refusal;

// The four numbers of a text, 0 for what is none.
pub(super) fn numbers_of(told: &str) -> [usize; 4] {
    let mut numbers = [0; 4];
    for (number, part) in numbers.iter_mut().zip(told.split(',')) {
        *number = part.parse().unwrap_or(0);
    }
    numbers
}

// The kind is the word that a table writes for it.
pub(super) fn made_fault(
    kind: &str,
    [number, sheet, line, field]: [usize; 4],
) -> Option<LoadFault> {
    let refusal = refusal_of(number);
    // By hand, as the refusal is.
    let sheet = if sheet == 1 {
        Sheet::Households
    } else {
        Sheet::Links
    };
    let place = Place { sheet, line };
    match kind {
        "!call" => Some(LoadFault::Call(refusal)),
        "!names" => Some(LineFault::WrongNames(place).into()),
        "!count" => Some(LineFault::WrongCount(place).into()),
        "!field" => Some(LineFault::from(FieldFault { place, field }).into()),
        "!parish" => Some(LoadFault::from(ParishFault {
            place,
            field: (field > 0).then_some(field),
            refusal,
        })),
        _ => None,
    }
}

// By hand, since the numbers that are told of refusals are tested against these.
fn refusal_of(number: usize) -> Refusal {
    match number {
        1 => Refusal::SearchOpen,
        5 => Refusal::OutsideLimits,
        6 => Refusal::NoHousehold,
        7 => Refusal::SelfLink,
        8 => Refusal::ParishFull,
        9 => Refusal::WrongNames,
        10 => Refusal::WrongCount,
        _ => Refusal::WrongField,
    }
}
