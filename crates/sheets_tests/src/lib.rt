// Tests of loads: what two sheets give, or what is wrong with them.
#![tactic(auto)]

#[cfg(test)]
mod cases;
#[cfg(test)]
mod counts;
#[cfg(test)]
mod fields;
#[cfg(test)]
mod lent;
#[cfg(test)]
mod limits;
#[cfg(test)]
mod loads;
#[cfg(test)]
mod made;
#[cfg(test)]
mod names;
#[cfg(test)]
mod order;
#[cfg(test)]
mod rooms;
#[cfg(test)]
mod runner;
#[cfg(test)]
mod spots;
#[cfg(test)]
mod written;
