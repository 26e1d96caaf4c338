// Laws of lower bounds.
ghost use Rattle.bounds.specs.Adding.{LayersAdd};
ghost use Rattle.bounds.specs.Bounds.{NumbersFit};

// A layer that adds no more than the charges below it leave, and only what the cut links pay, is a lower bound over any
// lower bound.
pub fn layers_add_holds()
    ensures { LayersAdd }
{}

// What a lower bound answers fits 32 bits.
pub fn numbers_fit_holds()
    ensures { NumbersFit }
{}
