// Sets of numbers below 64, as the bits of a number.
ghost use Rattle.std.specs.Iterator.{YieldsFirst, item_count};
ghost use Rattle.std.specs.Prelude.{◌≡◌, ◌^◌, ◌<◌};
ghost use Rattle.kinds.specs.Masks.{has, LowestBit, members};

// Is the bit set? No bit at or above 64 is.
pub fn has_bit(mask: u64, bit: u64) -> bool
    ensures { result ≡ has mask bit }
{
    bit < 64 && (mask >> bit) & 1 == 1
}

// The lowest bit that is set.
pub fn lowest_bit(mask: u64) -> Option<u16>
    ensures { LowestBit mask result }
{
    let bit = mask.trailing_zeros() as u16;
    (bit < 64).then_some(bit)
}

// The bits that are set in a number, from the lowest up.
#[derive(Drop)]
pub struct Bits {
    left: u64,
    ghost fits: { left < 2 ^ 64 },
}

impl Bits {
    pub fn of(mask: u64) -> Bits
        ensures { result.left ≡ mask }
    {
        Bits { left: mask }
    }
}

impl Iterator for Bits {
    type Item = u16;

    ghost next_gives = { YieldsFirst (λ bits. members bits.left) };

    ghost remaining = { item_count (λ bits. members bits.left) };

    fn next(&mut self) -> Option<u16> {
        let bit = lowest_bit(self.left)?;
        self.left &= self.left - 1;
        Some(bit)
    }
}

#[cfg(test)]
mod tests {
    use super::*;

    #[test]
    fn bits_from_the_lowest_up(rt: HostRuntime) {
        let mut bits = Bits::of(1 << 63 | 0b100001);
        assert_eq!(rt; bits.next(), Some(0));
        assert_eq!(rt; bits.next(), Some(5));
        assert_eq!(rt; bits.next(), Some(63));
        assert_eq!(rt; bits.next(), None);
        assert_eq!(rt; bits.next(), None);
        assert_eq!(rt; Bits::of(0).next(), None);
    }
}
