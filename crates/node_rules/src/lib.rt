//! The rules of the nodes, as definitions: what a node holds, and what each call and each frame does to it.
//!
//! The definitions stand in `specs/`, and `docs/NODE-RULES.md` reads them aloud. To begin with:
//!
//! - `Memory.antt` is what a node holds, `Plans.antt` what a rule answers: a plan of puts, memory and frames. `CarriedPlans.antt` says how a plan is
//!   carried out over a store whose writes may fail (`Carries`, `carry_out`).
//! - `Calls.antt` and `Acceptance.antt`, `HearingRules.antt` are the rules of a station; `Meters.antt` and `Coordinators.antt` those of the roles.
//! - `Frames.antt` is the edge: what a frame spells, and what arrived octets are, under ciphers that are given (`Ciphers.antt`).
//! - `Agreement.antt` is what memory and store say of one another, `RestartStates.antt` what a restart makes of a store.
//!
//! The code here is the words of the answers ([`Path`], [`Heard`], [`SendRefusal`] ..), [`Shown`], and the laws, each an empty function whose
//! clause is the law:
//!
//! - A refusal changes nothing ([`a_frame_refused_changes_nothing`] and its like), and [`the_room_names_the_refusal`] of a command.
//! - A call sends so much and no more ([`hearing_is_bounded`], [`a_send_is_bounded`], [`replies_are_few`]).
//! - A failed write leaves old or new ([`writes_fail_cleanly`]), and without a loss of power none fails ([`no_cut_no_failure`]).
//! - Tables keep their places ([`plans_write_in_place`], [`carrying_out_keeps_tables`]), and the coordinator's ring its address
//!   ([`carrying_out_keeps_home`]).
//!
//! - Puts may be stored after the call that made them (`outbox_laws`). A node over a keeper that lists its puts (`OutboxKeeper` of `host_calls`)
//!   writes nothing itself; its owner stores the puts that are listed, in order, and then sends the frames, and where a store fails it sends
//!   none. The node then does what it does over the store itself, whichever put fails, and a loss of power in between leaves records that the
//!   call itself could have left, with no frame sent ([`deferring_puts`]). The list has what the call put, in order
//!   ([`listed_puts_are_the_plans`]), so it is enough to store the list ([`listed_puts_are_deferred`]). A call makes at most four puts
//!   ([`hearing_puts_few`], [`sending_puts_few`], [`joining_puts_few`], [`orders_put_few`]).
//!
//! No rule reads a clock, draws a random value or knows of other nodes. What holds of whole lines is `line_laws`; that code follows the rules is
//! `plc_station`, `meter_node` and `coordinator`, whose calls ensure `Carries` (`carries`).
#![tactic(auto)]

mod heard;
mod laws;
mod octet_laws;
mod outbox_laws;
mod refusal;
mod session_time;
mod shown;
mod table_laws;

pub use heard::{Came, CoordinatorHeard, Heard, MeterHeard, Path, Reply, SentHow, Way};
pub use laws::{
    a_coordinators_drop_changes_nothing, a_coordinators_hearing_is_bounded, a_drop_changes_nothing,
    a_frame_refused_changes_nothing, a_join_is_bounded, a_join_refused_changes_nothing,
    a_meters_drop_changes_nothing, a_meters_hearing_is_bounded, a_send_is_bounded,
    a_send_refused_changes_nothing, accepting_only_marks, an_empty_store_is_blank,
    an_order_is_bounded, an_order_refused_changes_nothing, calls_are_functions,
    commands_are_handed_on, halted_does_nothing, halted_has_no_address, hearing_is_bounded,
    no_cut_no_failure, parts_are_carried_out, plans_follow_puts, plans_give_out_more,
    replies_are_few, ringless_has_no_address, the_room_names_the_refusal, writes_fail_cleanly,
};
pub use octet_laws::{
    the_network_opens_octets, the_network_opens_what_it_seals, unreads_are_octets,
};
pub use outbox_laws::{
    deferring_puts, hearing_puts_few, joining_puts_few, listed_puts_are_deferred,
    listed_puts_are_the_plans, orders_put_few, sending_puts_few,
};
pub use refusal::{
    CoordinatorRefusal, Dropped, FrameRefusal, Halted, JoinRefusal, LeaveRefusal, LocalRefusal,
    PresetFault, RandomFault, RingRefusal, SendRefusal, Unheard, heard_or_why,
};
pub use session_time::SESSION_TIME;
pub use shown::{Shown, ShownPeer, ShownPeers, ShownRef, ShownRoute, ShownRoutes};
pub use table_laws::{
    carrying_out_keeps_home, carrying_out_keeps_tables, coordinators_write_home,
    coordinators_write_no_ring, plans_leave_the_log, plans_write_in_place,
    stations_write_their_own,
};
