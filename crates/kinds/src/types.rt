// Type hierarchies of at most 64 types.
ghost use Rattle.arrayvec.specs.ArrayVec.{array_vec_len};
ghost use Rattle.kinds.specs.Hierarchy.{Sound};

mod answers;
pub mod crossing;
mod fill;
mod links;
mod marks;
mod meets;
pub mod misfit;
mod order;
#[cfg(test)]
mod tests;
mod upward;

pub use crate::masks::has_bit;
pub use links::Link;
pub use misfit::Misfit;
use order::Order;

// A hierarchy of types, numbered from 0, the top. Bit t of `leaves` says that t is a leaf. A supertype has a lower number than its subtypes,
// so that the greatest of several common types is the one with the lowest number.
#[derive(Drop)]
pub struct Types {
    order: Order,
    leaves: u64,
    ghost sound: { ∥ Sound (array_vec_len order.below) order.below.items leaves ∥₁ },
}
