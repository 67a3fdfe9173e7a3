// The meet of a slice of values, for every kind.
ghost use Rattle.kinds.specs.Meets.{MeetOfAll, MeetOfMembers};

use crate::kind::Kind;

// The greatest value at or below all of them, or none exactly when no value is. It is the top where there are none,
// and none where one of them is no value.
pub fn meet_all<K: Kind>(kind: &K, values: &[u64]) -> Option<u64>
    ensures greatest { MeetOfAll (K.meaning kind.now) values.now result }
    ensures members { MeetOfMembers (K.meaning kind.now) values.now result }
{
    let mut greatest = kind.top();
    for value in values {
        greatest = kind.meet(greatest, *value)?;
    }
    Some(greatest)
}

#[cfg(test)]
mod tests {
    use super::*;
    use crate::atoms::Atoms;
    use crate::value_sets::ValueSets;

    #[test]
    fn slices(rt: HostRuntime) {
        assert_eq!(rt; meet_all(&ValueSets, &[]), Some(u64::MAX));
        assert_eq!(rt; meet_all(&ValueSets, &[7, 14, 28]), Some(4));
        assert_eq!(rt; meet_all(&ValueSets, &[28, 7, 14, 7]), Some(4));
        assert_eq!(rt; meet_all(&ValueSets, &[3, 6, 4]), None);
        assert_eq!(rt; meet_all(&Atoms, &[65_536]), None);
    }
}
