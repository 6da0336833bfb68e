//! Laws of broadcasts and of the log. Each is the contract of a function that does nothing.
ghost use Rattle.broadcast_log.specs.Laws.{BroadcastsAreRead, ReadBroadcastsAreSpelled, EachIsAdmittedOnce, EachIsGivenOnce, NumbersLead, AdmissionsLead};

/// The broadcast that octets spell is read out of them.
pub fn broadcasts_are_read()
    ensures { BroadcastsAreRead }
{}

/// The broadcast that is read out of octets is the one that they spell.
pub fn read_broadcasts_are_spelled()
    ensures { ReadBroadcastsAreSpelled }
{}

/// Over any list of calls, failed puts and new starts an origin and number is admitted at most once.
pub fn each_is_admitted_once()
    ensures { EachIsAdmittedOnce }
{}

/// So a number is given out at most once, and is above all that were given out before.
pub fn each_is_given_once()
    ensures { EachIsGivenOnce }
{}

/// After a number was given out the log is what the records give, and where the put failed some log is.
pub fn numbers_lead()
    ensures { NumbersLead }
{}

/// After a broadcast was admitted the log is what the records give, and where the put failed some log is.
pub fn admissions_lead()
    ensures { AdmissionsLead }
{}
