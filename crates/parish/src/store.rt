// The parish itself. It keeps its limits in its type, and has all its memory from the start. Clauses see it as two lists, by
// `view` (specs/View); std's trait `Model` in its place would hide these limits from every caller's proof. This file has the
// struct alone, since a file of specs/ that names it cannot be imported at its head.
ghost use Rattle.std.specs.Prelude.{◌≤◌, vec_len, vec_capacity};
ghost use Rattle.parish.specs.Limits.{most_households, most_links, Weights, Joined};

use super::items::{Household, Link};

pub mod edits;
pub mod reads;

#[derive(Drop)]
pub struct Parish {
    households: Vec<Household>,
    links: Vec<Link>,
    ghost few: { vec_len households ≤ most_households },
    ghost reserved: { most_households ≤ vec_capacity households },
    ghost weights: { Weights households.items },
    ghost short: { vec_len links ≤ most_links },
    ghost room: { most_links ≤ vec_capacity links },
    ghost joined: { Joined (vec_len households) links.items },
}
