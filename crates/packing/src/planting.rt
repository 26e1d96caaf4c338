// Roots: each unset household with a usable link from the home lot.
ghost use Rattle.std.specs.Prelude.{◌≡◌, ◌*◌, ◌<◌, ◌≤◌};
ghost use Rattle.parish.specs.Limits.{most_households, heaviest_held};
ghost use Rattle.packing.specs.Grounded.{ground_of};
ghost use Rattle.packing.specs.Stands.{held_weight, Joins, Plants, Sown};

use super::growth::{Growth, Tree, tree_byte};
use bisection::UNSET;

// Households and links are named by number. A type that bounds the number would have to name the question, so each function
// here, in growing and in counting asks for it.
impl Growth<'_> {
    // A household joins a tree by a link, and the tree may grow on.
    pub(crate) fn join(&mut self, household: usize, root: usize, link: usize)
        requires household { household < (ground_of self.old.question).households }
        requires root { root < (ground_of self.old.question).households }
        requires link { link < (ground_of self.old.question).links }
        requires light { held_weight self.old.trees root ≤ most_households * heaviest_held }
        ensures { Joins household root link self.old self.new }
    {
        self.tree_of[household] = tree_byte(root);
        self.taken[link] = 1;
        self.trees[root] = Tree {
            weight: self.trees[root].weight + self.question.households[household].weight,
            live: true,
        };
    }

    // Makes a household a tree of its own where it is a root, and tells whether it is one.
    fn plant_at(&mut self, household: usize) -> bool
        requires household { household < (ground_of self.old.question).households }
        requires light { held_weight self.old.trees household ≤ most_households * heaviest_held }
        ensures { Plants household self.old self.new result }
    {
        if self.question.lots[household] != UNSET {
            return false;
        }
        let Some(link) = self.question.root_link(household) else {
            return false;
        };
        self.join(household, household, link);
        true
    }

    // Makes each root a tree of its own, and answers how many there are.
    pub(crate) fn plant(&mut self) -> u32
        requires { Sown (ground_of self.old.question) 0 self.old 0 }
        ensures sown { Sown (ground_of self.new.question) (ground_of self.new.question).households self.new result }
        ensures question { self.new.question ≡ self.old.question }
    {
        let mut roots = 0;

        // A loop, since each turn may change the trees: a chain that ends in `sum` would hide that.
        for household in 0..self.question.households.len() {
            roots += u32::from(self.plant_at(household));
        }
        roots
    }
}
