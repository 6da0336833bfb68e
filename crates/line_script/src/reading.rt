//! What a line of a script says.
ghost use Rattle.std.specs.Prelude.{◌≡◌, length};
ghost use Rattle.line_script.specs.LineReader.{coordinator_of, meter_of, depot_of, near_of, counter_of, number_of, allow_of, rand_of, join_of, leave_of};
ghost use Rattle.line_script.specs.LineReader.{send_of};
ghost use Rattle.line_script.specs.LineReader.{deliver_of, inject_of, lose_of, break_of, tick_of, restart_of, cut_of, rekey_of, challenge_of, activate_of};
ghost use Rattle.line_script.specs.LineReader.{kick_of, show_of, bcast_of, scan_of, choose_of, path_of, event_by, event_alone, event_of, reading};
ghost use Rattle.line_script.specs.Lines.{IsInRange};

use crate::kind::{EventKind, is_same};
use crate::word::{
    LINE_OCTETS, cost, eui, field, hex_octets, keeps_new, number, number_within, sixteen_octets,
};
use line_events::Event;
use plc_base::{Key, KeyIndex, RandomOctets};

/// What a line says.
#[derive(Drop)]
pub enum Reading<'a> {
    /// Nothing: it is empty, or a comment.
    Quiet,
    /// It has no reading.
    NoForm,
    /// An event.
    Reads(Event<'a>),
}

/// `coordinator <eui> <key>`
#[tactic(auto, unfolding(crate::specs::LineReader::coordinator_of))]
fn coordinator_of(octets: &[u8]) -> Option<Event<'static>>
    ensures { result ≡ coordinator_of octets.now }
{
    let (word, rest) = field(octets)?;
    let eui = eui(word)?;
    let key = Key(sixteen_octets(rest)?);
    Some(Event::Coordinator { eui, key })
}

/// `meter <eui> <psk>`
#[tactic(auto, unfolding(crate::specs::LineReader::meter_of))]
fn meter_of(octets: &[u8]) -> Option<Event<'static>>
    ensures { result ≡ meter_of octets.now }
{
    let (word, rest) = field(octets)?;
    let eui = eui(word)?;
    let psk = Key(sixteen_octets(rest)?);
    Some(Event::Meter { eui, psk })
}

/// `depot <n>`
#[tactic(auto, unfolding(crate::specs::LineReader::depot_of))]
fn depot_of(octets: &[u8]) -> Option<Event<'static>>
    ensures { result ≡ depot_of octets.now }
{
    let node = number(octets)?;
    Some(Event::Depot { node })
}

/// `near <a> <b> <cost>`
#[tactic(auto, unfolding(crate::specs::LineReader::near_of))]
fn near_of(octets: &[u8]) -> Option<Event<'static>>
    ensures { result ≡ near_of octets.now }
{
    let (word, rest) = field(octets)?;
    let a = number(word)?;
    let (word, rest) = field(rest)?;
    let b = number(word)?;
    let cost = cost(rest)?;
    Some(Event::Near { a, b, cost })
}

/// `counter <n> <value>`
#[tactic(auto, unfolding(crate::specs::LineReader::counter_of))]
fn counter_of(octets: &[u8]) -> Option<Event<'static>>
    ensures { result ≡ counter_of octets.now }
{
    let (word, rest) = field(octets)?;
    let node = number(word)?;
    let value = number(rest)?;
    Some(Event::Counter { node, value })
}

/// `number <n> <value>`
#[tactic(auto, unfolding(crate::specs::LineReader::number_of))]
fn number_of(octets: &[u8]) -> Option<Event<'static>>
    ensures { result ≡ number_of octets.now }
{
    let (word, rest) = field(octets)?;
    let node = number(word)?;
    let value = number_within(1, 65_535, rest)? as u16;
    Some(Event::Number { node, value })
}

/// `allow <n>`
#[tactic(auto, unfolding(crate::specs::LineReader::allow_of))]
fn allow_of(octets: &[u8]) -> Option<Event<'static>>
    ensures { result ≡ allow_of octets.now }
{
    let node = number(octets)?;
    Some(Event::Allow { node })
}

/// `rand <n> <value>`
#[tactic(auto, unfolding(crate::specs::LineReader::rand_of))]
fn rand_of(octets: &[u8]) -> Option<Event<'static>>
    ensures { result ≡ rand_of octets.now }
{
    let (word, rest) = field(octets)?;
    let node = number(word)?;
    let value = RandomOctets(sixteen_octets(rest)?);
    Some(Event::RandomOctets { node, value })
}

/// `join <n> <agent>`
#[tactic(auto, unfolding(crate::specs::LineReader::join_of))]
fn join_of(octets: &[u8]) -> Option<Event<'static>>
    ensures { result ≡ join_of octets.now }
{
    let (word, rest) = field(octets)?;
    let node = number(word)?;
    let agent = number(rest)?;
    Some(Event::Join { node, agent })
}

/// `leave <n>`
#[tactic(auto, unfolding(crate::specs::LineReader::leave_of))]
fn leave_of(octets: &[u8]) -> Option<Event<'static>>
    ensures { result ≡ leave_of octets.now }
{
    let node = number(octets)?;
    Some(Event::Leave { node })
}

/// `send <from> <to> <hex>`
#[tactic(auto, unfolding(crate::specs::LineReader::send_of))]
fn send_of<'a>(octets: &[u8], space: &'a mut [u8]) -> Option<Event<'a>>
    requires { length space.old ≡ LINE_OCTETS }
    ensures { result ≡ send_of octets.now }
{
    let (word, rest) = field(octets)?;
    let from = number(word)?;
    let (word, rest) = field(rest)?;
    let to = number(word)?;
    let datagram = hex_octets(rest, space)?;
    Some(Event::Send { from, to, datagram })
}

/// `deliver <flight> <n> <cost>`
#[tactic(auto, unfolding(crate::specs::LineReader::deliver_of))]
fn deliver_of(octets: &[u8]) -> Option<Event<'static>>
    ensures { result ≡ deliver_of octets.now }
{
    let (word, rest) = field(octets)?;
    let flight = number(word)?;
    let (word, rest) = field(rest)?;
    let node = number(word)?;
    let cost = cost(rest)?;
    Some(Event::Deliver { flight, node, cost })
}

/// `inject <n> <cost> <hex>`
#[tactic(auto, unfolding(crate::specs::LineReader::inject_of))]
fn inject_of<'a>(octets: &[u8], space: &'a mut [u8]) -> Option<Event<'a>>
    requires { length space.old ≡ LINE_OCTETS }
    ensures { result ≡ inject_of octets.now }
{
    let (word, rest) = field(octets)?;
    let node = number(word)?;
    let (word, rest) = field(rest)?;
    let cost = cost(word)?;
    let octets = hex_octets(rest, space)?;
    Some(Event::Inject { node, cost, octets })
}

/// `lose <flight>`
#[tactic(auto, unfolding(crate::specs::LineReader::lose_of))]
fn lose_of(octets: &[u8]) -> Option<Event<'static>>
    ensures { result ≡ lose_of octets.now }
{
    let flight = number(octets)?;
    Some(Event::Lose { flight })
}

/// `break <a> <b>`
#[tactic(auto, unfolding(crate::specs::LineReader::break_of))]
fn break_of(octets: &[u8]) -> Option<Event<'static>>
    ensures { result ≡ break_of octets.now }
{
    let (word, rest) = field(octets)?;
    let node = number(word)?;
    let next = number(rest)?;
    Some(Event::Break { node, next })
}

/// `tick <seconds>`
#[tactic(auto, unfolding(crate::specs::LineReader::tick_of))]
fn tick_of(octets: &[u8]) -> Option<Event<'static>>
    ensures { result ≡ tick_of octets.now }
{
    let seconds = number_within(1, 86_400, octets)?;
    Some(Event::Tick { seconds })
}

/// `restart <n>`
#[tactic(auto, unfolding(crate::specs::LineReader::restart_of))]
fn restart_of(octets: &[u8]) -> Option<Event<'static>>
    ensures { result ≡ restart_of octets.now }
{
    let node = number(octets)?;
    Some(Event::Restart { node })
}

/// `cut <n> <k> <old or new>`
#[tactic(auto, unfolding(crate::specs::LineReader::cut_of))]
fn cut_of(octets: &[u8]) -> Option<Event<'static>>
    ensures { result ≡ cut_of octets.now }
{
    let (word, rest) = field(octets)?;
    let node = number(word)?;
    let (word, rest) = field(rest)?;
    let nth = number_within(1, 1_000, word)? as u16;
    let keeps_new = keeps_new(rest)?;
    Some(Event::Cut {
        node,
        nth,
        keeps_new,
    })
}

/// `rekey <index> <key>`
#[tactic(auto, unfolding(crate::specs::LineReader::rekey_of))]
fn rekey_of(octets: &[u8]) -> Option<Event<'static>>
    ensures { result ≡ rekey_of octets.now }
{
    let (word, rest) = field(octets)?;
    let index = KeyIndex::new(number_within(0, 1, word)? as u8)?;
    let key = Key(sixteen_octets(rest)?);
    Some(Event::Rekey { index, key })
}

/// `challenge <n>`
#[tactic(auto, unfolding(crate::specs::LineReader::challenge_of))]
fn challenge_of(octets: &[u8]) -> Option<Event<'static>>
    ensures { result ≡ challenge_of octets.now }
{
    let node = number(octets)?;
    Some(Event::Challenge { node })
}

/// `activate <n> <index>`
#[tactic(auto, unfolding(crate::specs::LineReader::activate_of))]
fn activate_of(octets: &[u8]) -> Option<Event<'static>>
    ensures { result ≡ activate_of octets.now }
{
    let (word, rest) = field(octets)?;
    let node = number(word)?;
    let index = KeyIndex::new(number_within(0, 1, rest)? as u8)?;
    Some(Event::Activate { node, index })
}

/// `kick <n>`
#[tactic(auto, unfolding(crate::specs::LineReader::kick_of))]
fn kick_of(octets: &[u8]) -> Option<Event<'static>>
    ensures { result ≡ kick_of octets.now }
{
    let node = number(octets)?;
    Some(Event::Kick { node })
}

/// `show <n>`
#[tactic(auto, unfolding(crate::specs::LineReader::show_of))]
fn show_of(octets: &[u8]) -> Option<Event<'static>>
    ensures { result ≡ show_of octets.now }
{
    let node = number(octets)?;
    Some(Event::Show { node })
}

/// `bcast <n> <hex>`
#[tactic(auto, unfolding(crate::specs::LineReader::bcast_of))]
fn bcast_of<'a>(octets: &[u8], space: &'a mut [u8]) -> Option<Event<'a>>
    requires { length space.old ≡ LINE_OCTETS }
    ensures { result ≡ bcast_of octets.now }
{
    let (word, rest) = field(octets)?;
    let node = number(word)?;
    let datagram = hex_octets(rest, space)?;
    Some(Event::Bcast { node, datagram })
}

/// `scan <n>`
#[tactic(auto, unfolding(crate::specs::LineReader::scan_of))]
fn scan_of(octets: &[u8]) -> Option<Event<'static>>
    ensures { result ≡ scan_of octets.now }
{
    let node = number(octets)?;
    Some(Event::Scan { node })
}

/// `choose <n> <k>`
#[tactic(auto, unfolding(crate::specs::LineReader::choose_of))]
fn choose_of(octets: &[u8]) -> Option<Event<'static>>
    ensures { result ≡ choose_of octets.now }
{
    let (word, rest) = field(octets)?;
    let node = number(word)?;
    let k = number_within(1, 16, rest)? as u8;
    Some(Event::Choose { node, k })
}

/// `path <a> <b>`
#[tactic(auto, unfolding(crate::specs::LineReader::path_of))]
fn path_of(octets: &[u8]) -> Option<Event<'static>>
    ensures { result ≡ path_of octets.now }
{
    let (word, rest) = field(octets)?;
    let from = number(word)?;
    let to = number(rest)?;
    Some(Event::Path { from, to })
}

/// The event of a kind, by the words after the first.
#[tactic(auto, unfolding(crate::specs::LineReader::event_by))]
fn event_by<'a>(kind: EventKind, rest: &[u8], space: &'a mut [u8]) -> Option<Event<'a>>
    requires { length space.old ≡ LINE_OCTETS }
    ensures { result ≡ event_by kind rest.now }
{
    match kind {
        EventKind::Coordinator => coordinator_of(rest),
        EventKind::Meter => meter_of(rest),
        EventKind::Depot => depot_of(rest),
        EventKind::Near => near_of(rest),
        EventKind::Counter => counter_of(rest),
        EventKind::Number => number_of(rest),
        EventKind::Allow => allow_of(rest),
        EventKind::RandomOctets => rand_of(rest),
        EventKind::Join => join_of(rest),
        EventKind::Leave => leave_of(rest),
        EventKind::Send => send_of(rest, space),
        EventKind::Deliver => deliver_of(rest),
        EventKind::Inject => inject_of(rest, space),
        EventKind::Lose => lose_of(rest),
        EventKind::Break => break_of(rest),
        EventKind::Tick => tick_of(rest),
        EventKind::Restart => restart_of(rest),
        EventKind::Cut => cut_of(rest),
        EventKind::Rekey => rekey_of(rest),
        EventKind::Challenge => challenge_of(rest),
        EventKind::Activate => activate_of(rest),
        EventKind::Kick => kick_of(rest),
        EventKind::Show => show_of(rest),
        // It has no further word.
        EventKind::Checks => None,
        EventKind::Bcast => bcast_of(rest, space),
        EventKind::Scan => scan_of(rest),
        EventKind::Choose => choose_of(rest),
        EventKind::Path => path_of(rest),
    }
}

/// The event of a line of one word.
#[tactic(auto, unfolding(crate::specs::LineReader::event_alone))]
fn event_alone(octets: &[u8]) -> Option<Event<'static>>
    ensures { result ≡ event_alone octets.now }
{
    if is_same(octets, EventKind::Checks.word().as_bytes()) {
        return Some(Event::Checks);
    }
    None
}

#[tactic(auto, unfolding(crate::specs::LineReader::event_of))]
fn event_of<'a>(octets: &[u8], space: &'a mut [u8]) -> Option<Event<'a>>
    requires { length space.old ≡ LINE_OCTETS }
    ensures { result ≡ event_of octets.now }
{
    let Some((word, rest)) = field(octets) else {
        return event_alone(octets);
    };
    let kind = EventKind::named(word)?;
    event_by(kind, rest, space)
}

#[tactic(auto, unfolding(crate::specs::LineReader::reading))]
fn reading_of<'a>(line: &[u8], space: &'a mut [u8]) -> Reading<'a>
    requires { length space.old ≡ LINE_OCTETS }
    ensures { result ≡ reading line.now }
{
    match line.first() {
        None => Reading::Quiet,
        Some(b'#') => Reading::Quiet,
        Some(_) => match event_of(line, space) {
            Some(event) => Reading::Reads(event),
            None => Reading::NoForm,
        },
    }
}

/// What a line says, without its line feed. An empty line and one that begins with `#` say nothing.
///
/// Words are separated by one space each. Numbers are decimal, with no sign and no leading zero; octets are pairs of digits in
/// hexadecimal of either case. The octets that an event has so are written to `space`.
pub fn read_line<'a>(line: &[u8], space: &'a mut [u8]) -> Reading<'a>
    requires { length space.old ≡ LINE_OCTETS }
    ensures value { result ≡ reading line.now }
    ensures in_range { IsInRange result }
{
    reading_of(line, space)
}
