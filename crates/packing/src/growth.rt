// The trees of a question as they grow.
ghost use Rattle.std.specs.Prelude.{◌≡◌, ◌+◌, ◌<◌, length};
ghost use Rattle.parish.specs.Limits.{most_households};

use super::question::Question;
use parish::{MOST_HOUSEHOLDS, MOST_LINKS};

// The weight of a tree, and whether it may still grow. It keeps its weight when it may not.
#[derive(Clone, Copy)]
pub(crate) struct Tree {
    pub(crate) weight: u32,
    pub(crate) live: bool,
}

// The byte that names the tree with a root. By `as`: the clause says that it fits, and `try_from` would have an error to answer
// that never comes.
pub(crate) fn tree_byte(root: usize) -> u8
    requires { root < most_households }
    ensures { result ≡ root + 1 }
{
    (root + 1) as u8
}

// A question and its trees, each named by its root. In arrays of the most that there can be: a step allocates nothing.
#[derive(Drop)]
pub(crate) struct Growth<'a> {
    pub(crate) question: Question<'a>,

    // For each household one more than the root of its tree, or 0 where it is in none. Bytes: growing compares them at each
    // link, and with `Option<usize>` takes twice as long.
    pub(crate) tree_of: [u8; MOST_HOUSEHOLDS],

    // 1 for each root link and tree link, else 0. Numbers, since they are added to the charges, and bytes, since `pack` copies
    // them: with `u32` a consult on four households takes half as long again.
    pub(crate) taken: [u8; MOST_LINKS],

    // The tree with each household as its root. It weighs 0 where the household is no root, and is no Option: what weighs nothing
    // is not counted, and what is not live does not grow.
    pub(crate) trees: [Tree; MOST_HOUSEHOLDS],

    // A clause sees an array as a list.
    ghost long: { length trees ≡ most_households },
}

impl<'a> Growth<'a> {
    ghost use Rattle.packing.specs.Grounded.{ground_of};
    ghost use Rattle.packing.specs.Stands.{Sown};

    // No tree yet.
    pub(crate) fn new(question: &Question<'a>) -> Self
        ensures bare { Sown (ground_of result.question) 0 result 0 }
        ensures question { result.question ≡ question.now }
    {
        Growth {
            question: *question,
            tree_of: [0; MOST_HOUSEHOLDS],
            taken: [0; MOST_LINKS],
            trees: [Tree {
                weight: 0,
                live: false,
            }; MOST_HOUSEHOLDS],
        }
    }
}
