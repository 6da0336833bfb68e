//! Laws of the run of a script: each stands as the contract of a function that does nothing.
ghost use Rattle.script_runs.specs.Laws.{TheFirstBadLineIsOne, RunsEndAtABadLine, RunsGoOn, OnlyQuietLinesAreSkipped, EveryScriptIsARun};

/// A run goes on in the world that its lines leave, up to the first line that is bad, and ends there. Where it ends, that line is one of the script, with
/// its number, and with the reason why it is bad in that world.
pub fn runs_end_at_the_first_bad_line()
    ensures goes_on { RunsGoOn }
    ensures ends { RunsEndAtABadLine }
    ensures is_one { TheFirstBadLineIsOne }
{}

/// A line of at most 4,096 octets that does nothing is quiet. So each other one is taken, and its event is in the report, or it is bad, and ends the run: the
/// rules refuse no event silently.
pub fn only_quiet_lines_are_skipped()
    ensures { OnlyQuietLinesAreSkipped }
{}

/// The entries of every script, whatever its octets are, are a run of the network: each world is the rules' step from the one before, and at most 50,000
/// events are taken, all of them events that lines can say.
pub fn every_script_is_a_run()
    ensures { EveryScriptIsARun }
{}
