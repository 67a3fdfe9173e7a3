// The trail of a number: the first term that denotes its node.
ghost use Rattle.std.specs.Prelude.{◌<◌, ◌≤◌, length, vec_len};
ghost use Rattle.features.specs.Graphs.{Graph};
ghost use Rattle.numbering.specs.Frontier.{Numbered};
ghost use Rattle.numbering.specs.Traces.{TrailWritten};

use crate::mention::Mention;
use crate::numbers::Numbers;

impl Numbers {
    // Writes the attributes of the trail of number `k` to the start of `out`, and says which variable it begins with and how many
    // attributes there are. They are met from the last back to the first, and so are turned round at the end.
    pub fn trail(&self, k: usize, out: &mut [u16]) -> (u16, u16)
        requires numbered { (g : Graph) × Numbered g self.now }
        requires inside { k < vec_len self.now.listed }
        requires space { 272 ≤ length out.old }
        ensures { (g : Graph) → Numbered g self.now → TrailWritten g self.now k result.0 result.1 out.old out.new }
    {
        let mut at = k;
        let mut count = 0;
        loop {
            match self.listed[at].mention {
                Mention::Variable(variable) => {
                    out[..count].reverse();
                    return (variable, count as u16);
                }
                Mention::Attribute { giver, attribute } => {
                    out[count] = attribute;
                    count += 1;
                    at = giver as usize;
                }
            }
        }
    }
}
