// How many trees a bisection must hit.
ghost use Rattle.std.specs.Prelude.{◌≡◌, ◌<◌, ◌≤◌, length};
ghost use Rattle.parish.specs.Limits.{most_households};
ghost use Rattle.forest.specs.Fewest.{target};
ghost use Rattle.packing.specs.Grounded.{ground_of};
ghost use Rattle.packing.specs.Stands.{forest_of, held_weight};
ghost use Rattle.packing.specs.Counting.{weight_off, Heaviest, Counted};

use super::growth::{Growth, Tree};

impl Growth<'_> {
    // What a household takes from the target: its weight where it is set in the other lot, or unset in no tree.
    fn weight_off(&self, household: usize) -> u32
        requires { household < (ground_of self.now.question).households }
        ensures { result ≡ weight_off (ground_of self.now.question) (forest_of self.now) household }
    {
        if self.question.lots[household] == self.question.away() || self.is_outside(household) {
            self.question.households[household].weight
        } else {
            0
        }
    }

    // What the trees that are hit must weigh at least, where a lot weighs at least so much.
    pub(crate) fn target(&self, least: u32) -> u32
        ensures { result ≡ target (ground_of self.now.question) (forest_of self.now) least }
    {
        let off: u32 = (0..self.question.households.len())
            .map(|household| self.weight_off(household))
            .sum();
        least.saturating_sub(off)
    }
}

// The place of the heaviest tree, if any weighs something.
fn heaviest(trees: &[Tree]) -> Option<usize>
    ensures { Heaviest trees.now (length trees.now) result }
{
    trees
        .iter()
        .enumerate()
        .max_by_key(|(_, tree)| tree.weight)
        .filter(|(_, tree)| tree.weight > 0)
        .map(|(root, _)| root)
}

// The fewest trees whose weights reach a goal, taken heaviest first; all where they do not suffice. The weights are used up.
pub(crate) fn fewest(trees: &mut [Tree], roots: u32, goal: u32) -> u32
    requires { length trees.old ≤ most_households }
    ensures { Counted (length trees.old) (held_weight trees.old) roots goal result }
{
    let mut left = goal;
    let mut count = 0;

    // Each turn uses up the heaviest tree that is left: a sort of them first is no shorter, and its order would have to be proved.
    while left > 0 {
        let Some(root) = heaviest(trees) else {
            return roots;
        };
        left = left.saturating_sub(trees[root].weight);
        trees[root].weight = 0;
        count += 1;
    }
    count
}
