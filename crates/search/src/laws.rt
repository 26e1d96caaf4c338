// The laws of the search.
ghost use Rattle.search.specs.Words.{AnswerLaw, OrderLaw, StandingLaw, EmptyNodeLaw, PrunedSearchLaw, PrunesRightly};

use bounds::LowerBound;

// The answer is the one lawful bisection below the ceiling such that no lawful one costs less, and none that comes before
// it costs as little. There is none exactly when no lawful bisection costs less than the ceiling.
pub fn answer_law_holds()
    ensures { AnswerLaw }
{}

// 'Comes before' is a strict total order on the bisections that keep the pins.
pub fn order_law_holds()
    ensures { OrderLaw }
{}

// A node stands exactly when every node above it keeps the limit, and has a lower bound below the ceiling and below the
// cost of every lawful bisection before it.
pub fn standing_law_holds()
    ensures { StandingLaw }
{}

// The empty node always stands, and comes first.
pub fn empty_node_law_holds()
    ensures { EmptyNodeLaw }
{}

// A depth-first walk that prunes by the best leaf it has itself seen takes exactly the standing nodes, in order, and ends
// with the answer: over every number that keeps the law of lower bounds.
pub fn pruned_search_law_holds()
    ensures { PrunedSearchLaw }
{}

// So over every lower bound.
pub fn prunes_rightly<B: LowerBound>(bound: &B)
    ensures { PrunesRightly (B.meaning bound.now).number }
{}
