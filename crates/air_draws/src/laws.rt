//! Laws of draws, over their definitions alone: each stands as the contract of a function that does nothing.
ghost use Rattle.air_draws.specs.Laws.{DrawsAreCounted, KeysAreCounted, NothingIsDrawnAtFirst, StreamsAreApart};

/// Each draw is a function of the seed, the purpose, and how many draws of that purpose came before it.
pub fn draws_are_counted()
    ensures start { NothingIsDrawnAtFirst }
    ensures word { DrawsAreCounted }
    ensures key { KeysAreCounted }
{}

/// No two purposes share a stream.
pub fn streams_are_apart()
    ensures { StreamsAreApart }
{}
