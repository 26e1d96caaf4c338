// How an answer is written: the number of the bound, a colon, and the charge of each link with a blank before it; or
// `refused` and the number of the refusal.
//
//     2: 1 1 1 1
//     refused 3
ghost use Rattle.std.specs.Prelude.{◌≡◌, OnOk};
ghost use Rattle.parish.specs.View.{view};
ghost use Rattle.ask_bounds.specs.Parishes.{parish_of};

use super::questions::Question;
use super::stacks::consult;
use anyhow::Context;
use parish::{Link, Parish, Refusal};
use std::alloc::Global;
use std::fmt;

// A lower bound on the cost, and what each link is charged.
#[derive(Drop)]
struct Bound {
    number: u32,
    charges: Vec<u32>,
}

#[derive(Drop)]
pub(crate) struct Answer(Result<Bound, Refusal>);

impl fmt::Display for Answer {
    fn fmt<W: fmt::Write>(&self, f: &mut fmt::Formatter<W>) -> fmt::Result {
        match &self.0 {
            Ok(bound) => {
                write!(f, "{}:", bound.number)?;
                for charge in &bound.charges {
                    write!(f, " {charge}")?;
                }
                Ok(())
            }
            Err(refusal) => write!(f, "refused {}", u32::from(*refusal)),
        }
    }
}

// Asks a question of its stack, on a parish that is made anew for it.
pub(crate) fn ask(
    heap: Global,
    parish: &mut Parish,
    question: &Question<'_>,
) -> anyhow::Result<Answer> {
    if let Err(refusal) = fill(parish, &question.weights, &question.links) {
        return Ok(Answer(Err(refusal)));
    }
    let mut charges = vec![in heap; 0; parish.links().len()]?;
    let told = consult(
        question.stack,
        parish,
        question.cap,
        &question.lots,
        &mut charges,
    )
    .context("no stack of bounds has this name")?;
    Ok(Answer(told.map(|number| Bound { number, charges })))
}

// Replaces what a parish holds.
fn fill(parish: &mut Parish, weights: &[u32], links: &[Link]) -> Result<(), Refusal>
    ensures { OnOk result (view parish.new ≡ parish_of weights.now links.now) }
{
    parish.clear();
    for weight in weights {
        parish.add_household(*weight, None)?;
    }
    for link in links {
        parish.add_link(link.from, link.to, link.strength)?;
    }
    Ok(())
}
