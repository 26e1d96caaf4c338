// Laws of the flow layer.
ghost use Rattle.flows.specs.Laws.{AnySearch, FlowLaws, SameFlow, FlowBounds};

// Whatever searches, sending along paths from A to B until a side is shut gives a greatest flow, as much as the least cut.
pub fn any_search_holds()
    ensures { AnySearch }
{}

// The number added is the least cut of what is left, and the charges added are the amounts of one greatest flow.
pub fn flow_laws_hold()
    ensures { FlowLaws }
{}

// Which greatest flow it is depends on parish, lots and the charges below alone.
pub fn same_flow_holds()
    ensures { SameFlow }
{}

// Over any lower bound the layer is a lower bound.
pub fn flow_bounds_holds()
    ensures { FlowBounds }
{}
