// The line that is being read.
ghost use Rattle.std.specs.Prelude.{◌≡◌, [], ◌∷◌, ◌++◌, take};
ghost use Rattle.lines.specs.Gathering.{held};

// One byte more than the longest line has: as many tell a line that is too long.
const CAPACITY: usize = 121;

// The first bytes of a line: `count` of `bytes`. Those after them are let go.
#[derive(Clone, Copy)]
pub struct LineBuffer {
    bytes: [u8; CAPACITY],
    count: usize,
}

impl LineBuffer {
    pub fn new() -> LineBuffer
        ensures { held result ≡ [] }
    {
        LineBuffer {
            bytes: [0; CAPACITY],
            count: 0,
        }
    }

    // One byte more of the line.
    pub fn add(&mut self, byte: u8)
        ensures { held self.new ≡ take 121 (held self.old ++ (byte ∷ [])) }
    {
        if self.count < CAPACITY {
            self.bytes[self.count] = byte;
            self.count += 1;
        }
    }

    // The next line begins.
    pub fn clear(&mut self)
        ensures { held self.new ≡ [] }
    {
        self.count = 0;
    }

    pub fn line(&self) -> &[u8]
        ensures { result.now ≡ held self.now }
    {
        &self.bytes[..self.count.min(CAPACITY)]
    }
}
