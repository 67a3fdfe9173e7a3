// A first-in-first-out queue over a slice that its caller lends.
#![tactic(auto)]

ghost use Rattle.std.specs.Prelude.{◌^◌, ◌<◌, ◌≤◌, length};

mod methods;
#[cfg(test)]
mod tests;

// A ring: the entries that wait lie from `head` on, round the end of the slice to its start.
#[derive(Drop)]
pub struct Queue<'a, T: Copy> {
    slots: &'a mut [T],
    head: usize,
    len: usize,
    ghost inside: { head ≤ length slots.now },
    ghost fits: { len ≤ length slots.now },
    ghost small: { length slots.now < 2 ^ 64 },
}
