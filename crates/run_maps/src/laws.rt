//! Laws of the map: each stands as the contract of a function that does nothing.
ghost use Rattle.run_maps.specs.Laws.{LinksHold};

/// The link of two nodes is what the events say of these two, and of no others: how many frames of the one the other one heard, the least
/// cost of one, and whether the script gave them the route.
pub fn links_hold()
    ensures { LinksHold }
{}
