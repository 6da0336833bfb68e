//! What nodes do for further reach: acknowledged route replies, broadcasts, beacons and path requests. They are definitions, in
//! `specs/`, over those of `node_rules` and of the four crates of these subjects, and the step of a line is made of them (`line_rules`).
//!
//! - `ReachingNodes.antt` is a node with what it holds beside its memory: checks, a scan, a log of broadcasts. `FurtherReceptions.antt` is what it does with a
//!   frame (`hear_reaching`), `CheckedReplies.antt`, `Broadcasts.antt`, `Beacons.antt` and `PathRequests.antt` the rule of each subject.
//! - `ReachScripts.antt` and `ReachCases.antt` are small runs and cases that the checker computes.
//!
//! The code here is the words of the answers ([`CommandHeard`], [`DiscoveryHeard`], [`ReachDropped`] ..) and the laws, each an empty function
//! whose clause is the law:
//!
//! - Where checks are off, other frames are heard as without further reach ([`frames_are_heard_as_without`], [`nodes_hear_as_without`]).
//! - A refusal changes nothing ([`commands_refuse_cleanly`], [`further_calls_refuse_cleanly`], [`frames_refuse_cleanly`]).
//! - A broadcast is handed up once, its mark stored first ([`a_broadcast_is_handed_up_once`], [`a_broadcast_is_marked_first`]).
//! - A neighbour that is listed is not believed ([`listed_are_not_believed`]); nothing is heard without a scan
//!   ([`nothing_is_heard_without_a_scan`]).
//! - The rest of a node stays as it is ([`commands_keep_the_rest`], [`further_calls_keep_the_rest`]).
//!
//! The rules are for a node of either role; the code that follows them is in `line_world`. What holds of whole
//! runs, as that a reported walk was taken, is `line_laws`.
#![tactic(auto)]

mod cases;
mod heard;
mod laws;
mod refusal;
mod scripts;

pub use cases::{
    a_broadcast_stores_its_mark, a_relay_is_checked_too, an_acknowledgement_takes_a_counter,
    asks_are_judged_in_order, broadcasts_are_judged_in_order, discovery_is_judged_in_order,
    discovery_is_known_by_its_type, only_the_unjoined_scan, own_broadcasts_are_judged_in_order,
    paths_are_judged_in_order, strange_commands_are_dropped,
};
pub use heard::{CommandHeard, DiscoveryHeard};
pub use laws::{
    a_broadcast_is_handed_up_once, a_broadcast_is_marked_first, acknowledgements_are_commands,
    an_empty_store_gives_nothing, commands_are_handed_on, commands_keep_the_rest,
    commands_refuse_cleanly, commands_send_commands, commands_write_in_turn,
    frames_are_heard_as_without, frames_refuse_cleanly, further_calls_keep_the_rest,
    further_calls_refuse_cleanly, further_calls_send_commands, further_calls_write_in_turn,
    listed_are_not_believed, nodes_hear_as_without, nothing_is_awaited_without_checks,
    nothing_is_heard_without_a_scan, only_commands_are_handed_on, replies_are_acknowledged,
    time_changes_nothing_without_checks,
};
pub use refusal::{
    AskRefusal, BroadcastRefusal, ChooseRefusal, DiscoveryDropped, ReachDropped, ScanRefusal,
};
pub use scripts::{
    a_broken_path_is_not_answered, a_late_neighbour_is_listed, a_neighbour_in_time_is_believed,
    a_path_is_answered, broadcasts_go_on_and_end, the_cheapest_agent_is_chosen,
    the_coordinator_is_an_agent, without_checks_all_are_believed,
};
