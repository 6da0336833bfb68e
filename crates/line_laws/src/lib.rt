//! Laws of whole lines.
#![tactic(auto)]

mod event_laws;
mod laws;

pub use event_laws::{
    acknowledges_in_turn, beside_keeps, calls_keep_the_line, checks_in_turn, commands_in_turn,
    commands_keep_the_line, commands_may_be_sealed, discovering_keeps, discovery_keeps_the_line,
    further_calls_keep_all, joined_nodes_seal, keeps_in_turn, line_books_grow, line_flights_fall,
    line_logs_hold, line_nodes_accept_once, line_restarts_are_right, line_senders_are_right,
    line_steps_hold, line_steps_rise, line_steps_shut, line_steps_spell, line_tags_rise,
    line_traces_are_right, others_in_turn, others_may_not, plain_keeps, plans_split,
    replies_are_taken_alike, running_keeps, sealing_keeps, storing_keeps, the_start_holds,
    unsent_holds,
};
pub use laws::{
    every_address_differs, every_admission_is_right, every_agreement_is_said,
    every_broadcast_is_listed, every_broadcast_is_once, every_check_is_right, every_count_is_right,
    every_counter_rises, every_datagram_was_sent, every_event_is_reported, every_flight_falls,
    every_flight_is_octets, every_flight_is_spelled, every_forgery_is_reported,
    every_frame_is_accepted_once, every_history_is_kept, every_issued_key_stood,
    every_joining_agrees, every_key_is_issued_right, every_key_is_own,
    every_kicked_meter_stays_out, every_log_is_kept, every_mark_rises, every_network_run_is_right,
    every_node_accepts_once, every_nonce_differs, every_restart_ends_routes,
    every_restart_is_answered, every_run_holds, every_run_holds_throughout, every_run_is_loop_free,
    every_run_is_ranged, every_run_is_safe, every_run_is_sized, every_run_stays_in_open_custody,
    every_send_has_octets, every_sender_is_right, every_shut_out_meter_stays_out,
    every_step_is_taken, every_store_is_readable, every_tag_rises, every_trace_is_right,
    every_walk_was_taken, network_keeps_ranges, network_opens_what_it_seals, only_issued_keys,
    the_last_flights_say_all,
};
