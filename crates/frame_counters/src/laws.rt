//! Laws of counters and marks. Each is the contract of a function that does nothing.
ghost use Rattle.frame_counters.specs.Laws.{NoReservationChangesNothing, ReservationsLead, RoomIsNoPut, AdmissionsLead};

/// A reservation of no counter puts nothing and changes nothing.
pub fn no_reservation_changes_nothing()
    ensures { NoReservationChangesNothing }
{}

/// After a reservation the counter is what the records give, and where its put failed some counter is.
pub fn reservations_lead()
    ensures { ReservationsLead }
{}

/// Whether a counter would be admitted is asked without a put, so the answer is never a failed one.
pub fn room_is_no_put()
    ensures { RoomIsNoPut }
{}

/// After a counter was admitted the marks are what the records give, and where the put failed some marks are.
pub fn admissions_lead()
    ensures { AdmissionsLead }
{}
