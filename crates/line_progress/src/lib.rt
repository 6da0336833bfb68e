//! What one step or one event does to a datagram, that it arrives where links hold (`laws`), and that meters join where nothing is lost
//! and what a frame without a seal costs a node that hears it (`joining_laws`): laws over the definitions of `line_rules`.
#![tactic(auto)]

mod joining_laws;
mod laws;

pub use joining_laws::{
    joinings_arrive, joinings_arrive_by_agent, network_packets_pass, plain_frames_cost_little,
};
pub use laws::{
    bodies_have_fates, broadcasts_go_further, datagrams_arrive, datagrams_arrive_in_any_order,
    datagrams_came, deliveries_have_fates, discoveries_arrive, events_keep_bodies,
    events_keep_flights, events_keep_held, events_keep_pieces, events_leave_others,
    hearing_keeps_pieces, pieces_arrive, pieces_come_in, pieces_have_fates, requests_arrive,
    send_events_have_fates, sends_fly, sends_have_fates, stations_hand_up, ticks_have_fates,
    time_comes_to_all, units_have_fates,
};
