// A listing is read from its end.
ghost use Rattle.kinds.specs.Meaning.{Meaning};
ghost use Rattle.std.specs.Result.{MatchResult};
ghost use Rattle.graphs.specs.Reading.{Ground};
ghost use Rattle.graphs.specs.Rows.{TrailerOf};

use crate::fields::number_at;
use crate::misread::Misread;
use crate::trailer::Trailer;

// The counts and the place of the variables' nodes, where they agree with the limits and the length.
pub fn read_trailer(bytes: &[u8]) -> Result<Trailer, Misread>
    ensures { MatchResult result (λ t. TrailerOf bytes.now t) (λ e. (m : Meaning) → Ground m bytes.now e) }
{
    let length = bytes.len();
    if length < 8 {
        return Err(Misread::Short);
    }
    let nodes = number_at::<2>(bytes, length - 8) as usize;
    let variables = number_at::<2>(bytes, length - 6) as usize;
    let place = number_at::<4>(bytes, length - 4) as usize;
    if nodes > 256 || variables > 64 || place + 2 * variables + 8 != length {
        return Err(Misread::Counts);
    }
    Ok(Trailer {
        nodes,
        variables,
        place,
    })
}
