//! Laws of path messages, over their definitions alone: each stands as the contract of a function that does nothing.
ghost use Rattle.path_requests.specs.Laws.{PathsAreRead, ReadPathsAreSpelled};

/// The message that octets spell is read out of them.
pub fn paths_are_read()
    ensures { PathsAreRead }
{}

/// The message that is read out of octets is the one that they spell.
pub fn read_paths_are_spelled()
    ensures { ReadPathsAreSpelled }
{}
