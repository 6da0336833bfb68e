//! The words of each kind of line.
ghost use Rattle.std.specs.Prelude.{◌≡◌, is_some, length};
ghost use Rattle.line_script.specs.declared.word.TheConstants.{LINE_OCTETS};
ghost use Rattle.line_script.specs.Words as line_words;
ghost use Rattle.script_faults.specs.Forms as forms;

use line_script::{EventKind, hex_octets, keeps_new, number_within};

/// What a word of a line is.
#[derive(Clone, Copy, Debug, PartialEq, Eq)]
pub enum WordKind {
    /// The number of a node.
    Node,
    /// The number of a flight.
    Flight,
    /// A frame counter.
    Counter,
    /// An own number: 1 to 65,535.
    Own,
    /// The cost of a link: 1 to 255.
    Cost,
    /// The index of a group key: 0 or 1.
    Index,
    /// Seconds: 1 to 86,400.
    Seconds,
    /// Which write fails: 1 to 1,000.
    Write,
    /// Which agent is chosen: 1 to 16.
    Choice,
    /// An EUI-64: 16 digits in hexadecimal.
    Eui,
    /// A key: 32 digits in hexadecimal.
    Key,
    /// A random value: 32 digits in hexadecimal.
    Random,
    /// Octets: 1 to 2,048 pairs of digits in hexadecimal.
    Octets,
    /// `old` or `new`.
    Record,
}

/// The words of a line after its first.
#[derive(Clone, Copy)]
pub enum Form {
    /// None.
    Alone,
    /// One word.
    One {
        first: WordKind,
    },
    /// Two words.
    Two {
        first: WordKind,
        second: WordKind,
    },
    /// Three words.
    Three {
        first: WordKind,
        second: WordKind,
        third: WordKind,
    },
}

fn one(first: WordKind) -> Form
    ensures { result ≡ Form.One first }
{
    Form::One { first }
}

fn two(first: WordKind, second: WordKind) -> Form
    ensures { result ≡ Form.Two first second }
{
    Form::Two { first, second }
}

fn three(first: WordKind, second: WordKind, third: WordKind) -> Form
    ensures { result ≡ Form.Three first second third }
{
    Form::Three {
        first,
        second,
        third,
    }
}

/// The words of a kind of line after the first.
pub fn form_of(kind: EventKind) -> Form
    ensures { result ≡ forms.form_of kind }
{
    match kind {
        EventKind::Coordinator => two(WordKind::Eui, WordKind::Key),
        EventKind::Meter => two(WordKind::Eui, WordKind::Key),
        EventKind::Depot => one(WordKind::Node),
        EventKind::Near => three(WordKind::Node, WordKind::Node, WordKind::Cost),
        EventKind::Counter => two(WordKind::Node, WordKind::Counter),
        EventKind::Number => two(WordKind::Node, WordKind::Own),
        EventKind::Allow => one(WordKind::Node),
        EventKind::RandomOctets => two(WordKind::Node, WordKind::Random),
        EventKind::Join => two(WordKind::Node, WordKind::Node),
        EventKind::Leave => one(WordKind::Node),
        EventKind::Send => three(WordKind::Node, WordKind::Node, WordKind::Octets),
        EventKind::Deliver => three(WordKind::Flight, WordKind::Node, WordKind::Cost),
        EventKind::Inject => three(WordKind::Node, WordKind::Cost, WordKind::Octets),
        EventKind::Lose => one(WordKind::Flight),
        EventKind::Break => two(WordKind::Node, WordKind::Node),
        EventKind::Tick => one(WordKind::Seconds),
        EventKind::Restart => one(WordKind::Node),
        EventKind::Cut => three(WordKind::Node, WordKind::Write, WordKind::Record),
        EventKind::Rekey => two(WordKind::Index, WordKind::Key),
        EventKind::Challenge => one(WordKind::Node),
        EventKind::Activate => two(WordKind::Node, WordKind::Index),
        EventKind::Kick => one(WordKind::Node),
        EventKind::Show => one(WordKind::Node),
        EventKind::Checks => Form::Alone,
        EventKind::Bcast => two(WordKind::Node, WordKind::Octets),
        EventKind::Scan => one(WordKind::Node),
        EventKind::Choose => two(WordKind::Node, WordKind::Choice),
        EventKind::Path => two(WordKind::Node, WordKind::Node),
    }
}

// Whether a word is a number from `low` to `high`.
fn is_within(low: u32, high: u32, word: &[u8]) -> bool
    ensures { result ≡ is_some (line_words.number_within low high word.now) }
{
    number_within(low, high, word).is_some()
}

// Whether a word is a number below 2^32.
#[tactic(auto, using(crate::proofs::WordKinds::any_number))]
fn is_number(word: &[u8]) -> bool
    ensures { result ≡ is_some (line_words.number word.now) }
{
    is_within(0, u32::MAX, word)
}

// Whether a word is of this many digits in hexadecimal.
fn is_digits(count: usize, word: &[u8], space: &mut [u8]) -> bool
    requires { length space.old ≡ LINE_OCTETS }
    ensures { result ≡ forms.is_digits count word.now }
{
    if word.len() != count {
        return false;
    }
    hex_octets(word, space).is_some()
}

fn is_record(word: &[u8]) -> bool
    ensures { result ≡ is_some (line_words.keeps_new word.now) }
{
    keeps_new(word).is_some()
}

/// Whether a word is of a kind. Octets in hexadecimal are written to `space` in passing.
pub fn is_word(kind: WordKind, word: &[u8], space: &mut [u8]) -> bool
    requires { length space.old ≡ LINE_OCTETS }
    ensures { result ≡ forms.is_word kind word.now }
{
    match kind {
        WordKind::Node => is_number(word),
        WordKind::Flight => is_number(word),
        WordKind::Counter => is_number(word),
        WordKind::Own => is_within(1, 65_535, word),
        WordKind::Cost => is_within(1, 255, word),
        WordKind::Index => is_within(0, 1, word),
        WordKind::Seconds => is_within(1, 86_400, word),
        WordKind::Write => is_within(1, 1_000, word),
        WordKind::Choice => is_within(1, 16, word),
        WordKind::Eui => is_digits(16, word, space),
        WordKind::Key => is_digits(32, word, space),
        WordKind::Random => is_digits(32, word, space),
        WordKind::Octets => hex_octets(word, space).is_some(),
        WordKind::Record => is_record(word),
    }
}
