// How a question is written: a line of five parts, with `;` between them.
//
//     flow decided;5;3 2 2 3;1002;0 1 4,1 2 1,2 3 4,0 3 1
//
// They are the name of a stack of bounds, the cap, the weight of each household, the lots, a digit each, and the links, each
// with its two ends and its strength. Weights have a blank between them, links a comma. No household has a pin: a bound does
// not look at pins.
use anyhow::{Context, anyhow};
use parish::Link;
use std::alloc::{AllocError, Global};
use std::num::{ParseIntError, TryFromIntError};
use thiserror::Error;

#[derive(Drop)]
pub(crate) struct Question<'a> {
    pub(crate) stack: &'a str,
    pub(crate) cap: u32,
    pub(crate) weights: Vec<u32>,
    pub(crate) lots: Vec<u8>,
    pub(crate) links: Vec<Link>,
}

// Why a list cannot be read. It is small, since a chain makes room for one at each item: an `anyhow::Error` holds its text.
#[derive(Debug, Drop, Error)]
enum ListFault {
    #[error("a lot is not a digit")]
    Lot,
    #[error("a link has not three numbers")]
    Link,
    #[error(transparent)]
    Number(#[from] ParseIntError),
    #[error(transparent)]
    TooLarge(#[from] TryFromIntError),
    #[error(transparent)]
    Memory(#[from] AllocError),
}

const TOO_FEW: &str = "a question has fewer than five parts";

pub(crate) fn read(heap: Global, line: &str) -> anyhow::Result<Question<'_>> {
    let mut parts = line.split(';');
    let stack = parts.next().context(TOO_FEW)?;
    let cap = parts.next().context(TOO_FEW)?.parse::<u32>()?;
    let weights = numbers_of(heap, parts.next().context(TOO_FEW)?)?;
    let lots = lots_of(heap, parts.next().context(TOO_FEW)?)?;
    let links = links_of(heap, parts.next().context(TOO_FEW)?)?;
    if parts.next().is_some() {
        return Err(anyhow!("a question has more than five parts"));
    }
    Ok(Question {
        stack,
        cap,
        weights,
        lots,
        links,
    })
}

fn numbers_of(heap: Global, text: &str) -> Result<Vec<u32>, ListFault> {
    text.split_ascii_whitespace()
        .map(number_of)
        .try_collect(heap)
}

fn number_of(word: &str) -> Result<u32, ListFault> {
    Ok(word.parse::<u32>()?)
}

// By bytes, which is faster than by characters: a character that is no digit has no byte that is one.
fn lots_of(heap: Global, text: &str) -> Result<Vec<u8>, ListFault> {
    text.bytes().map(lot_of).try_collect(heap)
}

fn lot_of(digit: u8) -> Result<u8, ListFault> {
    let lot = char::from(digit).to_digit(10).ok_or(ListFault::Lot)?;
    Ok(u8::try_from(lot)?)
}

fn links_of(heap: Global, text: &str) -> Result<Vec<Link>, ListFault> {
    text.split_terminator(',')
        .map(|part| link_of(heap, part))
        .try_collect(heap)
}

fn link_of(heap: Global, text: &str) -> Result<Link, ListFault> {
    let numbers = numbers_of(heap, text)?;
    let [from, to, strength] = numbers.as_slice() else {
        return Err(ListFault::Link);
    };
    Ok(Link {
        from: usize::try_from(*from)?,
        to: usize::try_from(*to)?,
        strength: *strength,
    })
}
