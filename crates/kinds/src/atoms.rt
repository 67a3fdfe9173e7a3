// Atoms: the numbers 0 to 65,535, of which 0 is above all and no two others are ordered.
ghost use Rattle.kinds.specs.Atoms.{atoms};
ghost use Rattle.std.proofs.Common.{rules};

use crate::kind::Kind;

#[derive(Clone, Copy)]
pub struct Atoms;

const TOP: u64 = 0;

impl Kind for Atoms {
    ghost meaning = { λ _. atoms };

    ghost lawful = { Prim.search rules };

    fn is_value(&self, v: u64) -> bool {
        v <= u64::from(u16::MAX)
    }

    fn top(&self) -> u64 {
        TOP
    }

    fn is_leaf(&self, v: u64) -> bool {
        self.is_value(v) && v != TOP
    }

    // Two atoms have one at or below both where they are equal or one of them is the top.
    fn meet(&self, a: u64, b: u64) -> Option<u64> {
        if !self.is_value(a) || !self.is_value(b) {
            return None;
        }
        match (a, b) {
            (TOP, v) | (v, TOP) => Some(v),
            _ => (a == b).then_some(a),
        }
    }
}

#[cfg(test)]
mod tests {
    use super::*;

    #[test]
    fn edges(rt: HostRuntime) {
        assert!(rt; Atoms.is_value(0) && Atoms.is_value(65_535));
        assert!(rt; !Atoms.is_value(65_536));
        assert!(rt; Atoms.is_leaf(65_535) && !Atoms.is_leaf(0) && !Atoms.is_leaf(65_536));
    }

    #[test]
    fn meets(rt: HostRuntime) {
        assert_eq!(rt; Atoms.meet(0, 0), Some(0));
        assert_eq!(rt; Atoms.meet(0, 65_535), Some(65_535));
        assert_eq!(rt; Atoms.meet(65_535, 65_535), Some(65_535));
        assert_eq!(rt; Atoms.meet(1, 2), None);
        assert_eq!(rt; Atoms.meet(0, 65_536), None);
    }
}
