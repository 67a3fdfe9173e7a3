// The memory in which statements are closed.
ghost use Rattle.std.specs.Prelude.{◌≡◌, vec_len};
ghost use Rattle.tables.specs.Views.{Sound};

use joining::workspace::{Pair, Workspace};
use numbering::numbers::Numbers;
use tables::table::Table;

// `work` is where nodes are grown and joined, `numbers` says in which order they are listed, and `next` is the graph that comes of it, in listing order.
// `pairs` and `waiting` are the buffers of the two queues.
#[derive(Drop)]
pub struct Closer {
    pub work: Workspace,
    pub next: Table,
    pub numbers: Numbers,
    pub pairs: Vec<Pair>,
    pub waiting: Vec<u16>,
    ghost sound: { ∥ Sound next ∥₁ },
    ghost joinable: { vec_len pairs ≡ 8705 },
    ghost visitable: { vec_len waiting ≡ 272 },
}
