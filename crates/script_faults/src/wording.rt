//! The words of lines, for people: what each kind of line looks like, and what each of its words is.
ghost use Rattle.std.specs.Prelude.{◌≡◌};
ghost use Rattle.script_faults.specs.Wording as spec_wording;

use crate::form::{Form, WordKind};
use line_script::EventKind;

/// A kind of line with its words.
#[tactic(auto, unfolding(crate::specs::Wording::form_text))]
pub fn form_words(kind: EventKind) -> &'static str
    ensures { result.now ≡ spec_wording.form_text kind }
{
    match kind {
        EventKind::Coordinator => "coordinator <eui> <key>",
        EventKind::Meter => "meter <eui> <psk>",
        EventKind::Depot => "depot <node>",
        EventKind::Near => "near <node> <node> <cost>",
        EventKind::Counter => "counter <node> <value>",
        EventKind::Number => "number <node> <value>",
        EventKind::Allow => "allow <node>",
        EventKind::RandomOctets => "rand <node> <value>",
        EventKind::Join => "join <node> <agent>",
        EventKind::Leave => "leave <node>",
        EventKind::Send => "send <node> <node> <hex>",
        EventKind::Deliver => "deliver <flight> <node> <cost>",
        EventKind::Inject => "inject <node> <cost> <hex>",
        EventKind::Lose => "lose <flight>",
        EventKind::Break => "break <node> <node>",
        EventKind::Tick => "tick <seconds>",
        EventKind::Restart => "restart <node>",
        EventKind::Cut => "cut <node> <k> <old or new>",
        EventKind::Rekey => "rekey <index> <key>",
        EventKind::Challenge => "challenge <node>",
        EventKind::Activate => "activate <node> <index>",
        EventKind::Kick => "kick <node>",
        EventKind::Show => "show <node>",
        EventKind::Checks => "checks",
        EventKind::Bcast => "bcast <node> <hex>",
        EventKind::Scan => "scan <node>",
        EventKind::Choose => "choose <node> <k>",
        EventKind::Path => "path <node> <node>",
    }
}

/// How many words a line has after its first.
pub fn word_count(form: &Form) -> usize
    ensures { result ≡ spec_wording.word_count form.now }
{
    match form {
        Form::Alone => 0,
        Form::One { .. } => 1,
        Form::Two { .. } => 2,
        Form::Three { .. } => 3,
    }
}

/// The first words of the lines up to `lose`, in the order in which a script needs them.
#[tactic(auto, unfolding(crate::specs::Wording::first_words))]
pub fn first_words() -> &'static str
    ensures { result.now ≡ spec_wording.first_words }
{
    "coordinator, meter, depot, near, counter, number, allow, rand, join, leave, send, deliver, inject, lose, "
}

/// Those of the others.
#[tactic(auto, unfolding(crate::specs::Wording::other_words))]
pub fn other_words() -> &'static str
    ensures { result.now ≡ spec_wording.other_words }
{
    "break, tick, restart, cut, rekey, challenge, activate, kick, show, checks, bcast, scan, choose, path"
}

/// What a word is, where it is the one of this number behind the first word of a line.
pub fn wanted(line: EventKind, kind: WordKind, place: usize) -> &'static str
    ensures { result.now ≡ spec_wording.wanted line kind place }
{
    match kind {
        WordKind::Node => match line {
            EventKind::Join if place == 2 => "the node number of the agent",
            _ => "a node number",
        },
        WordKind::Flight => "a flight number",
        WordKind::Counter => "a counter, 0 to 4294967295",
        WordKind::Own => "an own number, 1 to 65535",
        WordKind::Cost => "a cost from 1 to 255",
        WordKind::Index => "a key index, 0 or 1",
        WordKind::Seconds => "seconds from 1 to 86400",
        WordKind::Write => "the number of a write, 1 to 1000",
        WordKind::Choice => "the number of an agent, 1 to 16",
        WordKind::Eui => "an EUI of 16 hexadecimal digits",
        WordKind::Key => match line {
            EventKind::Meter => "a pair key of 32 hexadecimal digits",
            _ => "a key of 32 hexadecimal digits",
        },
        WordKind::Random => "a random value of 32 hexadecimal digits",
        WordKind::Octets => "octets as pairs of hexadecimal digits",
        WordKind::Record => "`old` or `new`",
    }
}

/// Which octets a word may have, and how many of them.
#[derive(Clone, Copy, Debug, PartialEq, Eq)]
pub enum Shape {
    /// A number in decimal from `low`, which is 0 or 1, to `high`.
    Number { low: u32, high: u32 },
    /// This many digits in hexadecimal.
    Digits { count: usize },
    /// Pairs of digits in hexadecimal.
    Pairs,
    /// `old` or `new`.
    Record,
}

/// The shape of a word.
pub fn shape_of(kind: WordKind) -> Shape
    ensures { result ≡ spec_wording.shape_of kind }
{
    match kind {
        WordKind::Node => Shape::Number {
            low: 0,
            high: 4_294_967_295,
        },
        WordKind::Flight => Shape::Number {
            low: 0,
            high: 4_294_967_295,
        },
        WordKind::Counter => Shape::Number {
            low: 0,
            high: 4_294_967_295,
        },
        WordKind::Own => Shape::Number {
            low: 1,
            high: 65_535,
        },
        WordKind::Cost => Shape::Number { low: 1, high: 255 },
        WordKind::Index => Shape::Number { low: 0, high: 1 },
        WordKind::Seconds => Shape::Number {
            low: 1,
            high: 86_400,
        },
        WordKind::Write => Shape::Number {
            low: 1,
            high: 1_000,
        },
        WordKind::Choice => Shape::Number { low: 1, high: 16 },
        WordKind::Eui => Shape::Digits { count: 16 },
        WordKind::Key => Shape::Digits { count: 32 },
        WordKind::Random => Shape::Digits { count: 32 },
        WordKind::Octets => Shape::Pairs,
        WordKind::Record => Shape::Record,
    }
}
