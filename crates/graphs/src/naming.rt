// The numbers by which refusals are known.
ghost use Rattle.std.specs.Prelude.{◌≡◌};
ghost use Rattle.graphs.specs.Reading.{number_of};

use crate::misread::Misread;

impl Misread {
    pub fn number(self) -> u8
        ensures { result ≡ number_of self }
    {
        match self {
            Misread::Short => 13,
            Misread::Counts => 14,
            Misread::RecordPasses(_) | Misread::RecordsEnd(_) => 15,
            Misread::NoValue(_) => 16,
            Misread::Attributes(_) => 17,
            Misread::TargetOutside(_) | Misread::VariableOutside(_) => 18,
            Misread::LeafBranches(_) => 19,
            Misread::NotInOrder => 20,
        }
    }
}
