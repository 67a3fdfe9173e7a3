// Every order of a sentence's equations.
ghost use Rattle.std.specs.Prelude.{◌≡◌};

use std::fmt;

// The longest list of equations of which every order is tried.
pub const MOST: usize = 6;

// What came of every order.
#[derive(Clone, Copy)]
pub struct Orders {
    pub tried: usize,
    // orders in which each equation was accepted
    pub accepted: usize,
    // accepted orders whose graph is, byte for byte, that of the first
    pub same: usize,
}

impl Default for Orders {
    ghost is_default = { λ orders. (orders.tried ≡ 0) × (orders.accepted ≡ 0) × (orders.same ≡ 0) };

    fn default() -> Orders {
        Orders {
            tried: 0,
            accepted: 0,
            same: 0,
        }
    }
}

impl fmt::Display for Orders {
    fn fmt<W: fmt::Write>(&self, f: &mut fmt::Formatter<W>) -> fmt::Result {
        let Orders {
            tried,
            accepted,
            same,
        } = *self;
        if accepted == 0 {
            write!(f, "{tried}. All are refused.")
        } else if same == tried {
            write!(f, "{tried}. All are accepted and give the same graph.")
        } else {
            write!(
                f,
                "{tried}. {accepted} are accepted; {same} give the same graph."
            )
        }
    }
}
