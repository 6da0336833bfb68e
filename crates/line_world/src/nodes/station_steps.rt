//! What a station does for its node, halted or not.
ghost use Rattle.std.specs.Prelude.{◌≡◌, ◌≤◌, is_some, length, nat_lt, false, Ok, IfNone, IfSome, MatchResult};
ghost use Rattle.std.specs.Option.{option_map_or};
ghost use Rattle.routing_set.specs.RoutingSet as routing;
ghost use Rattle.line_events.specs.declared.event.Answer.TheVariants as answers;
ghost use Rattle.node_rules.specs.Agreement.{Agrees};
ghost use Rattle.node_rules.specs.Calls as calls;
ghost use Rattle.node_rules.specs.CarriedPlans.{Carries, nothing};
ghost use Rattle.node_rules.specs.Plans.{resting};

use line_events::Answer;
use node_rules::{Halted, PresetFault};
use plc_base::{BadStore, LinkCost, MemKeeper, Short};
use plc_station::Station;

// Sets the next frame counter. A halted station stays as it is.
pub(crate) fn set_counter(station: &mut Station<MemKeeper>, value: u32) -> Result<(), PresetFault>
    requires agrees { Agrees station.old }
    ensures halted { IfNone station.old.memory ((result ≡ Ok tt) × (station.new ≡ station.old)) }
    ensures carries { IfSome station.old.memory (λ l. Carries station.old (calls.preset_counter l value) result nothing station.new) }
    ensures agrees { Agrees station.new }
{
    if station.halted() {
        return Ok(());
    }
    station.preset_counter(value)
}

// Sets the last own number. A halted station stays as it is.
pub(crate) fn set_number(station: &mut Station<MemKeeper>, value: u16) -> Result<(), PresetFault>
    requires agrees { Agrees station.old }
    requires value { 1 ≤ value }
    ensures halted { IfNone station.old.memory ((result ≡ Ok tt) × (station.new ≡ station.old)) }
    ensures carries { IfSome station.old.memory (λ l. Carries station.old (calls.preset_number l value) result nothing station.new) }
    ensures agrees { Agrees station.new }
{
    if station.halted() {
        return Ok(());
    }
    station.preset_number(value)
}

// Offers a neighbour. A halted station stays as it is.
pub(crate) fn offer_near(
    station: &mut Station<MemKeeper>,
    to: Short,
    cost: LinkCost,
    now: u64,
) -> Result<(), PresetFault>
    requires agrees { Agrees station.old }
    ensures halted { IfNone station.old.memory ((result ≡ Ok tt) × (station.new ≡ station.old)) }
    ensures carries { IfSome station.old.memory (λ l. Carries station.old (calls.preset_near l to cost now) result nothing station.new) }
    ensures agrees { Agrees station.new }
{
    if station.halted() {
        return Ok(());
    }
    station.preset_near(to, cost, now)
}

// The word for a link that broke.
fn broken_word(broke: Result<(), Halted>) -> Answer
    ensures { MatchResult broke (λ _. result ≡ answers.Broken) (λ _. result ≡ answers.Halted) }
{
    match broke {
        Ok(()) => Answer::Broken,
        Err(_) => Answer::Halted,
    }
}

// A link of the station broke.
pub(crate) fn break_at(station: &mut Station<MemKeeper>, next: Short) -> Answer
    requires agrees { Agrees station.old }
    ensures halted { IfNone station.old.memory ((result ≡ answers.Halted) × (station.new ≡ station.old)) }
    ensures carries { IfSome station.old.memory (λ l. Carries station.old
        (resting (calls.broke next l) answers.Broken answers.Broken) result nothing station.new) }
    ensures agrees { Agrees station.new }
{
    let broke = station.broke(next);
    broken_word(broke)
}

// Whether the station keeps a rank of an address. A halted one keeps none.
pub(crate) fn has_rank(station: &Station<MemKeeper>, dest: Short) -> bool
    ensures { result ≡ option_map_or (λ l. is_some (routing.rank_of l.routing dest)) station.now.memory false }
{
    if station.halted() {
        return false;
    }
    station.routing().rank(dest).is_some()
}

// Whether the station keeps 64 ranks. A halted one keeps none.
pub(crate) fn is_full(station: &Station<MemKeeper>) -> bool
    ensures { result ≡ option_map_or (λ l. nat_lt 63 (length l.routing.entries)) station.now.memory false }
{
    if station.halted() {
        return false;
    }
    station.routing().entries().len() > 63
}

// The word of a restart.
pub(crate) fn restart_word(read: Result<(), BadStore>) -> Answer
    ensures { MatchResult read (λ _. result ≡ answers.Restarted) (λ _. result ≡ answers.BadStore) }
{
    match read {
        Ok(()) => Answer::Restarted,
        Err(_) => Answer::BadStore,
    }
}
