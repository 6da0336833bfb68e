//! What is true of all sentences.
ghost use Rattle.line_view.specs.Truths.{DatagramsCameAsSaid, UpsAreWorded};

/// The sentence of each event at which a datagram was handed up is that of a claim which is true of the entry of the run.
pub fn sentences_are_true()
    ensures { UpsAreWorded }
{}

/// By the verdict on a send that was taken, its datagram came at the first event of the run that handed it up, and not at all where none did.
pub fn datagrams_came_as_said()
    ensures { DatagramsCameAsSaid }
{}
