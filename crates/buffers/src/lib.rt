// Bytes written one after another into a slice that a caller lends.
#![tactic(auto)]

ghost use Rattle.std.specs.Prelude.{◌≤◌, length};

mod methods;
#[cfg(test)]
mod tests;

// What is written stands at the front of the buffer, up to `at`.
#[derive(Drop)]
pub struct Writer<'a> {
    buffer: &'a mut [u8],
    at: usize,
    ghost inside: { at ≤ length buffer.now },
}
