//! Laws of captures, over their definitions alone: each stands as the contract of a function that does nothing.
ghost use Rattle.line_capture.specs.Laws.{FlightsAreCaptured, TimesRise};

/// Without what is heard, the packets of a run in which no octets came that no node sent are its flights in their order, each at its sender.
pub fn flights_are_captured()
    ensures { FlightsAreCaptured }
{}

/// The times of the packets rise, so that a reader shows them in the order of the run.
pub fn times_rise()
    ensures { TimesRise }
{}
