// One function for each theorem on joins, values, renumbering and the contradiction that is named. The contract is the theorem;
// the functions do nothing else.
ghost use Rattle.growth.specs.Joins.{JoinStands, ValueStands, TrailsAreFirst, NamesNoValue, NamesLeafBranches, NamesBroken, RenumberedQuotient, RenumberedDenotes, RenumberedStands, SameShapeInOrder, NumberedJoinStands};

pub fn join_stands()
    ensures { JoinStands }
{}

pub fn value_stands()
    ensures { ValueStands }
{}

pub fn trails_are_first()
    ensures { TrailsAreFirst }
{}

pub fn names_no_value()
    ensures { NamesNoValue }
{}

pub fn names_leaf_branches()
    ensures { NamesLeafBranches }
{}

pub fn names_broken()
    ensures { NamesBroken }
{}

pub fn renumbered_quotient()
    ensures { RenumberedQuotient }
{}

pub fn renumbered_denotes()
    ensures { RenumberedDenotes }
{}

pub fn renumbered_stands()
    ensures { RenumberedStands }
{}

pub fn same_shape_in_order()
    ensures { SameShapeInOrder }
{}

pub fn numbered_join_stands()
    ensures { NumberedJoinStands }
{}
