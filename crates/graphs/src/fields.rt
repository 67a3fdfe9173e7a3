// Numbers of more than one byte, the lowest byte first.
ghost use Rattle.std.specs.Prelude.{◌≡◌, ◌+◌, ◌^◌, ◌<◌, ◌≤◌, length, take, drop};
ghost use Rattle.features.specs.Listing.{little};
ghost use Rattle.graphs.specs.Listings.{field};

pub fn number_at<const WIDTH: usize>(bytes: &[u8], place: usize) -> u64
    requires width { WIDTH ≤ 8 }
    requires fits { place + WIDTH ≤ length bytes.now }
    ensures value { result ≡ field bytes.now place WIDTH }
    ensures small { result < 256 ^ WIDTH }
    ensures bytes { little WIDTH result ≡ take WIDTH (drop place bytes.now) }
{
    let mut number = [0; 8];
    number[..WIDTH].copy_from_slice(&bytes[place..place + WIDTH]);
    u64::from_le_bytes(number)
}
