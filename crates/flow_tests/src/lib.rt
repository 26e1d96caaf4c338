// Tests of the flow layer: what it adds on examples and in the largest parishes, and what it refuses.
#![tactic(auto)]

#[cfg(test)]
mod asking;
#[cfg(test)]
mod examples;
#[cfg(test)]
mod largest;
#[cfg(test)]
mod refused;
