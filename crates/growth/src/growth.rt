// One function for each theorem about a graph that grows. The contract is the theorem; the functions do nothing else.
ghost use Rattle.growth.specs.Theorems.{EmptyStands, SayingTheSameStandsAlike, OrderAndRepetitionDoNotMatter, NewVariableStands, NewNodeStands, GrownStands, TermGrownStands, PairGrownStands, EquationMentionsItsTerms, ValueMentionsItsTerm, ApartChangesNothing, SameShapeStandsAlike, StandingHolds, HoldingStands, AcceptedHolds, DeclaredHolds, EquationStands, ValueOfTermStands};

pub fn empty_stands()
    ensures { EmptyStands }
{}

pub fn saying_the_same_stands_alike()
    ensures { SayingTheSameStandsAlike }
{}

pub fn order_and_repetition_do_not_matter()
    ensures { OrderAndRepetitionDoNotMatter }
{}

pub fn new_variable_stands()
    ensures { NewVariableStands }
{}

pub fn new_node_stands()
    ensures { NewNodeStands }
{}

pub fn grown_stands()
    ensures { GrownStands }
{}

pub fn term_grown_stands()
    ensures { TermGrownStands }
{}

pub fn pair_grown_stands()
    ensures { PairGrownStands }
{}

pub fn equation_mentions_its_terms()
    ensures { EquationMentionsItsTerms }
{}

pub fn value_mentions_its_term()
    ensures { ValueMentionsItsTerm }
{}

pub fn apart_changes_nothing()
    ensures { ApartChangesNothing }
{}

pub fn same_shape_stands_alike()
    ensures { SameShapeStandsAlike }
{}

pub fn standing_holds()
    ensures { StandingHolds }
{}

pub fn holding_stands()
    ensures { HoldingStands }
{}

pub fn accepted_holds()
    ensures { AcceptedHolds }
{}

pub fn declared_holds()
    ensures { DeclaredHolds }
{}

pub fn equation_stands()
    ensures { EquationStands }
{}

pub fn value_of_term_stands()
    ensures { ValueOfTermStands }
{}
