//! Why a description is refused.
ghost use Rattle.std.specs.Prelude.{◌≡◌, Some};
ghost use Rattle.plan_tables.specs.Faults.{section_word};
ghost use Rattle.plan_tables.specs.Words.{words_of, wanted_text, wrong_text, meant_text, unknown_text, place_text, cause_text, fault_text};

use crate::keys::{Key, KeySet};
use std::alloc::AllocError;
use std::fmt;

/// A place in a text, from line 1 and column 1 on. Columns count octets.
#[derive(Clone, Copy, Debug, PartialEq, Eq)]
pub struct TextPlace {
    pub line: usize,
    pub column: usize,
}

/// A table of a description.
#[derive(Clone, Copy, Debug, PartialEq, Eq)]
pub enum Section {
    /// The keys outside all tables.
    Top,
    Place,
    Air,
    Joining,
    Readings,
    Rotation,
    Care,
    /// The nth table `[[at]]`, from 0 on.
    At(usize),
}

impl Section {
    /// The name of the table, empty for the keys outside all tables.
    pub fn word(self) -> &'static str
        ensures { result.now ≡ section_word self }
    {
        match self {
            Section::Top => "",
            Section::Place => "place",
            Section::Air => "air",
            Section::Joining => "joining",
            Section::Readings => "readings",
            Section::Rotation => "rotation",
            Section::Care => "care",
            Section::At(_) => "at",
        }
    }
}

/// What fits a key.
#[derive(Clone, Copy, Debug, PartialEq, Eq)]
pub enum Wanted {
    /// A table.
    Table,
    /// An array of tables.
    Tables,
    /// A time of at most 400 days.
    Time,
    /// Per cent from 0 to 100 with at most two decimals.
    Chance,
    /// True or false.
    Flag,
    /// One of the words of the key.
    Word,
    /// A number up to this one.
    UpTo(u64),
    /// A number from 1 to this one.
    FromOneTo(u64),
    /// At most 998 flats in all.
    Flats,
    /// A number from 1 to 255, or `by loss`.
    Cost,
    /// Measured links.
    Links,
    /// One line of at most 200 octets.
    Line,
    /// Nodes of the line.
    Nodes,
    /// Meters of the line.
    Meters,
    /// Nothing, since nodes are listed.
    NoNode,
    /// Two nodes of the line.
    TwoNodes,
    /// Two nodes of which one hears the other.
    Linked,
}

/// The value of a key does not fit it.
#[derive(Clone, Copy, Debug, PartialEq, Eq)]
pub struct WrongValue {
    /// The table that has the key, or is to have it.
    pub section: Section,
    pub key: Key,
    /// What fits.
    pub wanted: Wanted,
}

/// Which key may be meant by one that its table may not have.
#[derive(Clone, Copy, Debug, PartialEq, Eq)]
pub enum Meant {
    /// One of the same table, a few edits away.
    Here(Key),
    /// One of another table, a few edits away or none.
    There(KeySet, Key),
    /// None is near.
    Nothing,
}

/// A key that a table may not have.
#[derive(Drop, Debug)]
pub struct UnknownKey {
    /// The table that has the key.
    pub section: Section,
    /// The key.
    pub key: String,
    /// The key as a message quotes it.
    pub shown: String,
    /// Which keys the table may have.
    pub known: KeySet,
    /// Which key may be meant.
    pub meant: Meant,
}

/// What is wrong.
#[derive(Drop, Debug)]
pub enum Cause {
    /// The text is no TOML. What is said is the reader's message.
    Syntax(String),
    Unknown(UnknownKey),
    Wrong(WrongValue),
}

/// Why a description is refused.
#[derive(Drop, Debug)]
pub enum PlanFault {
    /// Something is wrong at a place of the text.
    At(TextPlace, Cause),
    /// Memory ran out.
    Memory,
}

impl From<AllocError> for PlanFault {
    ghost use Rattle.plan_tables.specs.declared.fault.PlanFault.TheVariants.{Memory};

    ghost from_gives = { λ _ fault. fault ≡ Memory };

    fn from(_: AllocError) -> PlanFault {
        PlanFault::Memory
    }
}

// The words that a key may have.
fn words_of(key: Key) -> &'static str
    ensures { result.now ≡ words_of key }
{
    match key {
        Key::Kind => "\"street\", \"grid\", \"tower\", \"scatter\" or \"matrix\"",
        Key::Coordinator => "\"end\" or \"middle\"",
        Key::Rate => "\"robo\", \"dbpsk\", \"dqpsk\" or \"d8psk\"",
        Key::How => "\"air\" or \"depot\"",
        Key::Way => "\"push\" or \"poll\"",
        Key::Order => "\"coordinator last\", \"coordinator first\" or \"meter by meter\"",
        Key::Leaves => "\"old\" or \"new\"",
        _ => {
            "\"power\", \"torn\", \"noise\", \"link\", \"kick\", \"rekey\", \"replay\", \"delay\" or \"false_joins\""
        }
    }
}

// What fits a key, in words.
#[derive(Clone, Copy)]
struct WantedOf {
    key: Key,
    wanted: Wanted,
}

impl fmt::Display for WantedOf {
    ghost output = { λ of. Some (wanted_text of.key of.wanted) };

    fn fmt<W: fmt::Write>(&self, f: &mut fmt::Formatter<W>) -> fmt::Result {
        match self.wanted {
            Wanted::Table => f.write_str("a table"),
            Wanted::Tables => f.write_str("tables [[at]]"),
            Wanted::Time => f.write_str(
                "a time of at most 400 days, as 90, \"90s\", \"5m\", \"2h\", \"1d\" or \"06:30\"",
            ),
            Wanted::Chance => f.write_str("per cent from 0 to 100 with at most two decimals"),
            Wanted::Flag => f.write_str("true or false"),
            Wanted::Word => f.write_str(words_of(self.key)),
            Wanted::UpTo(most) => write!(f, "a number up to {most}"),
            Wanted::FromOneTo(most) => write!(f, "a number from 1 to {most}"),
            Wanted::Flats => f.write_str("such that there are at most 998 flats in all"),
            Wanted::Cost => f.write_str("a number from 1 to 255, or \"by loss\""),
            Wanted::Links => f.write_str(
                "a list of [from, to, loss] or [from, to, loss, cost], ascending by from and to, with nodes up to 998",
            ),
            Wanted::Line => {
                f.write_str("one line of at most 200 octets, without control characters")
            }
            Wanted::Nodes => f.write_str("a list of nodes of the line"),
            Wanted::Meters => f.write_str("a list of meters of the line"),
            Wanted::NoNode => f.write_str("left out where nodes are listed"),
            Wanted::TwoNodes => f.write_str("a list of two different nodes"),
            Wanted::Linked => f.write_str("a list of two nodes of which one hears the other"),
        }
    }
}

impl fmt::Display for WrongValue {
    ghost output = { λ wrong. Some (wrong_text wrong) };

    fn fmt<W: fmt::Write>(&self, f: &mut fmt::Formatter<W>) -> fmt::Result {
        let wanted = WantedOf {
            key: self.key,
            wanted: self.wanted,
        };
        write!(f, "the value of {} has to be {wanted}", self.key)
    }
}

impl fmt::Display for Meant {
    ghost output = { λ meant. Some (meant_text meant) };

    fn fmt<W: fmt::Write>(&self, f: &mut fmt::Formatter<W>) -> fmt::Result {
        match self {
            Meant::Here(key) => write!(f, "; did you mean `{key}`?"),
            Meant::There(set, key) => write!(f, "; did you mean `{key}` {set}?"),
            Meant::Nothing => f.write_str(""),
        }
    }
}

impl fmt::Display for UnknownKey {
    ghost output = { λ unknown. Some (unknown_text unknown) };

    fn fmt<W: fmt::Write>(&self, f: &mut fmt::Formatter<W>) -> fmt::Result {
        write!(
            f,
            "no key {} is called `{}`{}",
            self.known, self.shown, self.meant
        )
    }
}

impl fmt::Display for Cause {
    ghost output = { λ cause. Some (cause_text cause) };

    fn fmt<W: fmt::Write>(&self, f: &mut fmt::Formatter<W>) -> fmt::Result {
        match self {
            Cause::Syntax(message) => write!(f, "{message}"),
            Cause::Unknown(unknown) => write!(f, "{unknown}"),
            Cause::Wrong(wrong) => write!(f, "{wrong}"),
        }
    }
}

impl fmt::Display for TextPlace {
    ghost output = { λ place. Some (place_text place) };

    fn fmt<W: fmt::Write>(&self, f: &mut fmt::Formatter<W>) -> fmt::Result {
        write!(f, "line {}, column {}", self.line, self.column)
    }
}

impl fmt::Display for PlanFault {
    ghost output = { λ fault. Some (fault_text fault) };

    fn fmt<W: fmt::Write>(&self, f: &mut fmt::Formatter<W>) -> fmt::Result {
        match self {
            PlanFault::At(place, cause) => write!(f, "{place}: {cause}"),
            PlanFault::Memory => f.write_str("out of memory"),
        }
    }
}
