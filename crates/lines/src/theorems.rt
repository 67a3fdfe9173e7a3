// One function for each theorem about lines. The contract is the theorem; the functions do nothing else.
ghost use Rattle.lines.specs.Theorems.{FirstBytesSuffice, MemorySuffices};

// The first 121 bytes of a line fix what comes of it.
pub fn first_bytes_suffice()
    ensures { FirstBytesSuffice }
{}

// No call of a line is refused for want of a trail or of room for a listing.
pub fn memory_suffices()
    ensures { MemorySuffices }
{}
