// Theorems on one worked graph, each on the contract of a small function.
ghost use Rattle.features.specs.Worked.{WorkedHasNineAttributes, WorkedSatisfiesAll, WorkedHoldsWhatWasSaid, WorkedInOrder, TwoTermsDenoteNothing, ThereAndBack, WorkedListing};

pub fn has_nine_attributes()
    ensures { WorkedHasNineAttributes }
{}

pub fn satisfies_all()
    ensures { WorkedSatisfiesAll }
{}

pub fn holds_what_was_said()
    ensures { WorkedHoldsWhatWasSaid }
{}

pub fn in_order()
    ensures { WorkedInOrder }
{}

pub fn two_terms_denote_nothing()
    ensures { TwoTermsDenoteNothing }
{}

pub fn there_and_back()
    ensures { ThereAndBack }
{}

pub fn listing()
    ensures { WorkedListing }
{}
