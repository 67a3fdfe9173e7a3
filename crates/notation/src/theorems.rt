// Theorems about the notation, each on the contract of a small function.
ghost use Rattle.notation.specs.Notation.{OneCommand};

// A line writes at most one command.
pub fn one_command()
    ensures { OneCommand }
{}
