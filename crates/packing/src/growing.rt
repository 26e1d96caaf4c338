// Growing: the lightest tree takes its lowest link to a household outside all trees, until no tree has one.
ghost use Rattle.std.specs.Prelude.{◌≡◌, ℕ, ◌<◌, length};
ghost use Rattle.forest.specs.Forests.{inside, outside};
ghost use Rattle.packing.specs.Grounded.{ground_of};
ghost use Rattle.packing.specs.Stands.{forest_of, Sown, Whole};
ghost use Rattle.packing.specs.Growing.{Lightest, Far};

use super::growth::{Growth, Tree, tree_byte};
use bisection::UNSET;
use parish::Link;

// The lightest tree that may still grow, by its root, the lowest where they tie.
fn lightest(trees: &[Tree]) -> Option<usize>
    ensures { Lightest trees.now (length trees.now) result }
{
    // A loop: of `min_by_key` only the form with liveness, weight and root in its key proves by itself, and packing then runs a
    // fifth more instructions.
    let mut best = None;
    for (root, tree) in trees.iter().enumerate() {
        if tree.live {
            match best {
                Some(other) if trees[other].weight <= tree.weight => {}
                _ => best = Some(root),
            }
        }
    }
    best
}

impl Growth<'_> {
    // Whether a household is in the tree with a root.
    fn is_inside(&self, household: usize, root: usize) -> bool
        requires household { household < (ground_of self.now.question).households }
        requires root { root < (ground_of self.now.question).households }
        ensures { result ≡ inside (forest_of self.now) root household }
    {
        self.tree_of[household] == tree_byte(root)
    }

    // Whether a household is unset and outside all trees.
    pub(crate) fn is_outside(&self, household: usize) -> bool
        requires { household < (ground_of self.now.question).households }
        ensures { result ≡ outside (ground_of self.now.question) (forest_of self.now) household }
    {
        self.question.lots[household] == UNSET && self.tree_of[household] == 0
    }

    // The household outside all trees to which a usable link leads from a tree.
    fn far_end(&self, root: usize, link: usize) -> Option<usize>
        requires root { root < (ground_of self.now.question).households }
        requires link { link < (ground_of self.now.question).links }
        ensures { Far (ground_of self.now.question) (forest_of self.now) root link result }
    {
        if !self.question.is_usable(link) {
            return None;
        }
        let Link { from, to, .. } = self.question.links[link];
        if self.is_inside(from, root) && self.is_outside(to) {
            Some(to)
        } else if self.is_inside(to, root) && self.is_outside(from) {
            Some(from)
        } else {
            None
        }
    }

    // Grows the trees until none has a usable link to an unset household outside all trees.
    pub(crate) fn grow(&mut self)
        requires { (roots : ℕ) × Sown (ground_of self.old.question) (ground_of self.old.question).households self.old roots }
        ensures whole { Whole (ground_of self.new.question) self.new }
        ensures question { self.new.question ≡ self.old.question }
    {
        let households = self.question.households.len();

        // Loops over trees and links, left by the label when a link is taken: the lightest tree is then another.
        'grow: loop {
            while let Some(root) = lightest(&self.trees[..households]) {
                for link in 0..self.question.links.len() {
                    if let Some(household) = self.far_end(root, link) {
                        self.join(household, root, link);
                        continue 'grow;
                    }
                }
                self.trees[root].live = false;
            }
            break;
        }
    }
}
