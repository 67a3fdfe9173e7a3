// What is proved of the grounds of refusals, on the contract of a small function.
ghost use Rattle.graphs.specs.Reading.{ListingsAreRead};

pub fn listings_are_read()
    ensures { ListingsAreRead }
{}
