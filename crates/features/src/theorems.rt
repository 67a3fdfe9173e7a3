// One function for each theorem about statements, their closing and their graphs. The contract is the theorem; the functions do nothing else.
ghost use Rattle.features.specs.Theorems.{JoinedInEveryModel, JoinedIfInEveryModel, ClashHasNoModel, MostGeneral, ModelExactlyWithoutClash, ClosingBySet, HoldsBySet, StrictTotalOrder, EveryNodeHasOneTrail, TrailIsFirst, OneGraph, SameGraphSameBytes, OneListing};

// What closing joins denotes one node in every model.
pub fn joined_in_every_model()
    ensures { JoinedInEveryModel }
{}

// Without a clash, closing joins no more than what denotes one node in every model.
pub fn joined_if_in_every_model()
    ensures { JoinedIfInEveryModel }
{}

// Under a clash no graph satisfies what was said.
pub fn clash_has_no_model()
    ensures { ClashHasNoModel }
{}

// Without a clash, the graph that holds what was said is the most general model.
pub fn most_general()
    ensures { MostGeneral }
{}

// Where a graph holds what was said, there is a model exactly when there is no clash.
pub fn model_exactly_without_clash()
    ensures { ModelExactlyWithoutClash }
{}

// Closing does not depend on the order of statements, or on how often one is made.
pub fn closing_depends_on_the_set()
    ensures { ClosingBySet }
{}

// Nor does the graph that holds them.
pub fn holding_depends_on_the_set()
    ensures { HoldsBySet }
{}

// Listing order is a strict total order on terms.
pub fn listing_order_is_total()
    ensures { StrictTotalOrder }
{}

// Each node that a term denotes has a first such term, its trail.
pub fn every_node_has_one_trail()
    ensures { EveryNodeHasOneTrail }
{}

// The trail of a node is the first term of its class under closing.
pub fn trail_is_first_term()
    ensures { TrailIsFirst }
{}

// At most one graph in listing order holds a set of statements.
pub fn one_graph_in_listing_order()
    ensures { OneGraph }
{}

// Equal graphs have equal bytes.
pub fn same_graph_same_bytes()
    ensures { SameGraphSameBytes }
{}

// A number of variables and a set of statements have at most one listing.
pub fn one_listing()
    ensures { OneListing }
{}
