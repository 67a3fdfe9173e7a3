// Theorems on numbering and on the bytes of a graph, each on the contract of a small function.
ghost use Rattle.features.specs.Bytes.{ListingLength, ListingIsBytes, ListingBounded, BytesDetermineGraph};
ghost use Rattle.features.specs.Numbering.{BreadthFirstInOrder, InOrderBreadthFirst, TrailsByFirstMention};

pub fn breadth_first_in_order()
    ensures { BreadthFirstInOrder }
{}

pub fn in_order_breadth_first()
    ensures { InOrderBreadthFirst }
{}

pub fn trails_by_first_mention()
    ensures { TrailsByFirstMention }
{}

pub fn listing_length()
    ensures { ListingLength }
{}

pub fn listing_is_bytes()
    ensures { ListingIsBytes }
{}

pub fn listing_bounded()
    ensures { ListingBounded }
{}

pub fn bytes_determine_graph()
    ensures { BytesDetermineGraph }
{}
