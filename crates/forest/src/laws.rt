// Laws of the packing layer.
ghost use Rattle.forest.specs.Laws.{PackingLaws, SamePacking, PackingBounds};

// The trees are those that growing gives, the number added is the fewest of them that reach the target, and each link of a
// tree is charged 1 more.
pub fn packing_laws_hold()
    ensures { PackingLaws }
{}

// What is added depends on parish, cap, lots and the charges below alone.
pub fn same_packing_holds()
    ensures { SamePacking }
{}

// Over any lower bound the layer is a lower bound.
pub fn packing_bounds_holds()
    ensures { PackingBounds }
{}
