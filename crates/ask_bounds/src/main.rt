// Answers questions to lower bounds, one a line, from standard input to standard output. `questions` says how a question is
// written and `answers` how an answer is; `stacks` has the bounds. A line that is no question ends the program with status 1.
#![tactic(auto)]

use parish::Parish;
use std::io::{BufRead, BufReader};

mod answers;
mod questions;
mod stacks;

fn main(rt: HostRuntime) -> anyhow::Result<()> {
    let heap = rt.alloc();
    let mut parish = Parish::new(heap)?;
    for line in BufReader::new(heap, rt.stdin())?.lines(heap) {
        let text = line?;
        let question = questions::read(heap, text.as_str())?;
        let answer = answers::ask(heap, &mut parish, &question)?;
        println!(rt; "{answer}")?;
    }
    Ok(())
}
