//! Laws of the step: each carried by a function that does nothing.
ghost use Rattle.line_rules.specs.FurtherRuns.{NothingFurther};
ghost use Rattle.line_rules.specs.Laws.{StepsGoOn, LineStepsGoOn};
ghost use Rattle.line_rules.specs.Logs.{LineStepsKeepLogs, LogsKeptAtFirst};
ghost use Rattle.line_rules.specs.Runs.{TheStartIsReached, HistoriesGoOn};

/// An event that is taken counts one event on, and takes back no flight and no tag that was made; no node goes, and the clock does not
/// fall.
#[tactic(auto)]
pub fn steps_go_on()
    ensures { StepsGoOn }
{}

/// So does one where nodes have further reach.
#[tactic(auto)]
pub fn line_steps_go_on()
    ensures { LineStepsGoOn }
{}

/// The history of a world goes on by each event that is taken. So whoever steps a world has its history, and all that the laws say of
/// runs holds of it.
#[tactic(auto)]
pub fn histories_go_on()
    ensures first { TheStartIsReached }
    ensures later { HistoriesGoOn }
{}

/// Before the first event no neighbour is checked and no agent was heard, and the history has no broadcast and no path.
#[tactic(auto)]
pub fn it_starts_with_nothing_further()
    ensures { NothingFurther }
{}

/// Whatever power is lost, the log of broadcasts beside each node is what its store gives, and where a node is halted some log is: before
/// the first event, and after each that is taken, where no table of a node is longer than its slots, and a command that comes is octets.
#[tactic(auto)]
pub fn logs_are_kept()
    ensures first { LogsKeptAtFirst }
    ensures later { LineStepsKeepLogs }
{}
