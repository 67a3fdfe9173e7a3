// The order of the types of a hierarchy.
ghost use Rattle.std.specs.Prelude.{◌≡◌, ◌<◌, ◌≤◌, slice_index};
ghost use Rattle.arrayvec.specs.ArrayVec.{array_vec_len};
ghost use Rattle.kinds.specs.Hierarchy.{AllTypes};

use arrayvec::ArrayVec;

// For each type, the set of the types at or below it: bit c of `below[t]` says that type c is at or below type t.
#[derive(Drop)]
pub struct Order {
    pub below: ArrayVec<u64, 64>,
    ghost some: { 0 < array_vec_len below },
    ghost types: { AllTypes below.items },
}

impl Order {
    // How many types there are.
    pub fn count(&self) -> u16
        ensures value { result ≡ array_vec_len self.now.below }
        ensures few { result ≤ 64 }
    {
        self.below.len() as u16
    }

    // The types at or below the type.
    pub fn set(&self, t: u16) -> u64
        requires { t < array_vec_len self.now.below }
        ensures { result ≡ slice_index self.now.below.items t }
    {
        self.below[usize::from(t)]
    }
}
