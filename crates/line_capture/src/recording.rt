//! What is recorded of a run.
use line_record::RunRecord;
use line_script::Totals;
use plc_base::{Eui, OctetRef};

/// A run, as far as a capture shows it.
#[derive(Clone, Copy)]
pub struct Recording<'a> {
    /// What there is of everything.
    pub totals: Totals,
    /// The EUI-64 of each node.
    pub euis: &'a [Eui],
    /// The events and the flights.
    pub run_record: &'a RunRecord,
    /// The octets of each flight, by its number from 1.
    pub octets: &'a [OctetRef<'a>],
    /// The octets that no node sent, in the order of the events that brought them.
    pub injected: &'a [OctetRef<'a>],
}
