//! The keys of a description, and which keys a table may have.
ghost use Rattle.std.specs.Prelude.{◌≡◌};
ghost use Rattle.plan_tables.specs.Keys.{key_word, keys_of, all_tables, set_word};

use std::fmt;

/// A key of a description. `docs/LINE-DESCRIPTION.md` says what each is.
#[derive(Clone, Copy, Debug, PartialEq, Eq)]
pub enum Key {
    Title,
    Seed,
    For,
    Place,
    Air,
    Joining,
    Readings,
    Rotation,
    Care,
    At,
    Kind,
    Meters,
    Coordinator,
    Reach,
    Loss,
    LossStep,
    Cost,
    Wide,
    High,
    Risers,
    Floors,
    Flats,
    Links,
    Rate,
    Repeats,
    BreakAfter,
    Backoffs,
    MinBe,
    MaxBe,
    JitterMs,
    AckLoss,
    Duplicates,
    Overhear,
    Collisions,
    How,
    From,
    Within,
    Retry,
    Tries,
    Every,
    Way,
    Octets,
    Answered,
    Refresh,
    RefreshEvery,
    AtOnce,
    Times,
    Orders,
    Gap,
    Order,
    RejoinAfter,
    What,
    Node,
    Nodes,
    Write,
    Leaves,
    Index,
    Count,
    Later,
}

impl Key {
    /// The key as it stands in the text.
    pub fn word(self) -> &'static str
        ensures { result.now ≡ key_word self }
    {
        match self {
            Key::Title => "title",
            Key::Seed => "seed",
            Key::For => "for",
            Key::Place => "place",
            Key::Air => "air",
            Key::Joining => "joining",
            Key::Readings => "readings",
            Key::Rotation => "rotation",
            Key::Care => "care",
            Key::At => "at",
            Key::Kind => "kind",
            Key::Meters => "meters",
            Key::Coordinator => "coordinator",
            Key::Reach => "reach",
            Key::Loss => "loss",
            Key::LossStep => "loss_step",
            Key::Cost => "cost",
            Key::Wide => "wide",
            Key::High => "high",
            Key::Risers => "risers",
            Key::Floors => "floors",
            Key::Flats => "flats",
            Key::Links => "links",
            Key::Rate => "rate",
            Key::Repeats => "repeats",
            Key::BreakAfter => "break_after",
            Key::Backoffs => "backoffs",
            Key::MinBe => "min_be",
            Key::MaxBe => "max_be",
            Key::JitterMs => "jitter_ms",
            Key::AckLoss => "ack_loss",
            Key::Duplicates => "duplicates",
            Key::Overhear => "overhear",
            Key::Collisions => "collisions",
            Key::How => "how",
            Key::From => "from",
            Key::Within => "within",
            Key::Retry => "retry",
            Key::Tries => "tries",
            Key::Every => "every",
            Key::Way => "way",
            Key::Octets => "octets",
            Key::Answered => "answered",
            Key::Refresh => "refresh",
            Key::RefreshEvery => "refresh_every",
            Key::AtOnce => "at_once",
            Key::Times => "times",
            Key::Orders => "orders",
            Key::Gap => "gap",
            Key::Order => "order",
            Key::RejoinAfter => "rejoin_after",
            Key::What => "what",
            Key::Node => "node",
            Key::Nodes => "nodes",
            Key::Write => "write",
            Key::Leaves => "leaves",
            Key::Index => "index",
            Key::Count => "count",
            Key::Later => "later",
        }
    }
}

impl fmt::Display for Key {
    ghost use Rattle.std.specs.Prelude.{Some};

    ghost output = { λ key. Some (key_word key) };

    fn fmt<W: fmt::Write>(&self, f: &mut fmt::Formatter<W>) -> fmt::Result {
        f.write_str(self.word())
    }
}

/// The tables with different keys: those of `[place]` and `[[at]]` by their kinds.
#[derive(Clone, Copy, Debug, PartialEq, Eq)]
pub enum KeySet {
    /// Outside all tables.
    Top,
    /// `[place]` of kind `street`.
    Street,
    /// `[place]` of kind `grid`.
    Grid,
    /// `[place]` of kind `tower`.
    Tower,
    /// `[place]` of kind `scatter`.
    Scatter,
    /// `[place]` of kind `matrix`.
    Matrix,
    /// `[air]`.
    Air,
    /// `[joining]`.
    Joining,
    /// `[readings]`.
    Readings,
    /// `[rotation]`.
    Rotation,
    /// `[care]`.
    Care,
    /// `[[at]]` of kind `power`.
    Power,
    /// `[[at]]` of kind `torn`.
    Torn,
    /// `[[at]]` of kind `noise`.
    Noise,
    /// `[[at]]` of kind `link`.
    LinkDown,
    /// `[[at]]` of kind `kick`.
    Kick,
    /// `[[at]]` of kind `rekey`.
    Rekey,
    /// `[[at]]` of kind `replay`.
    Replay,
    /// `[[at]]` of kind `delay`.
    Delay,
    /// `[[at]]` of kind `false_joins`.
    FalseJoins,
}

const TOP: [Key; 10] = [
    Key::Title,
    Key::Seed,
    Key::For,
    Key::Place,
    Key::Air,
    Key::Joining,
    Key::Readings,
    Key::Rotation,
    Key::Care,
    Key::At,
];

const STREET: [Key; 7] = [
    Key::Kind,
    Key::Meters,
    Key::Coordinator,
    Key::Reach,
    Key::Loss,
    Key::LossStep,
    Key::Cost,
];

const GRID: [Key; 7] = [
    Key::Kind,
    Key::Meters,
    Key::Wide,
    Key::Reach,
    Key::Loss,
    Key::LossStep,
    Key::Cost,
];

const TOWER: [Key; 8] = [
    Key::Kind,
    Key::Risers,
    Key::Floors,
    Key::Flats,
    Key::Reach,
    Key::Loss,
    Key::LossStep,
    Key::Cost,
];

const SCATTER: [Key; 8] = [
    Key::Kind,
    Key::Meters,
    Key::Wide,
    Key::High,
    Key::Reach,
    Key::Loss,
    Key::LossStep,
    Key::Cost,
];

const MATRIX: [Key; 3] = [Key::Kind, Key::Links, Key::Cost];

const AIR: [Key; 11] = [
    Key::Rate,
    Key::Repeats,
    Key::BreakAfter,
    Key::Backoffs,
    Key::MinBe,
    Key::MaxBe,
    Key::JitterMs,
    Key::AckLoss,
    Key::Duplicates,
    Key::Overhear,
    Key::Collisions,
];

const JOINING: [Key; 5] = [Key::How, Key::From, Key::Within, Key::Retry, Key::Tries];

const READINGS: [Key; 12] = [
    Key::From,
    Key::Every,
    Key::Within,
    Key::Way,
    Key::Octets,
    Key::Answered,
    Key::Tries,
    Key::Retry,
    Key::Refresh,
    Key::RefreshEvery,
    Key::AtOnce,
    Key::Times,
];

const ROTATION: [Key; 6] = [
    Key::AtOnce,
    Key::Retry,
    Key::Tries,
    Key::Orders,
    Key::Gap,
    Key::Order,
];

const CARE: [Key; 1] = [Key::RejoinAfter];

const POWER: [Key; 6] = [
    Key::At,
    Key::What,
    Key::Node,
    Key::Nodes,
    Key::Meters,
    Key::For,
];

const TORN: [Key; 8] = [
    Key::At,
    Key::What,
    Key::Node,
    Key::Nodes,
    Key::Meters,
    Key::Write,
    Key::Leaves,
    Key::For,
];

const NOISE: [Key; 5] = [Key::At, Key::What, Key::Nodes, Key::Loss, Key::For];

const LINK_DOWN: [Key; 4] = [Key::At, Key::What, Key::Nodes, Key::For];

const KICK: [Key; 5] = [Key::At, Key::What, Key::Node, Key::Nodes, Key::Meters];

const REKEY: [Key; 3] = [Key::At, Key::What, Key::Index];

const REPLAY: [Key; 5] = [Key::At, Key::What, Key::Node, Key::Nodes, Key::Count];

const DELAY: [Key; 5] = [Key::At, Key::What, Key::Node, Key::For, Key::Later];

const FALSE_JOINS: [Key; 3] = [Key::At, Key::What, Key::Nodes];

const TABLES: [KeySet; 20] = [
    KeySet::Top,
    KeySet::Street,
    KeySet::Grid,
    KeySet::Tower,
    KeySet::Scatter,
    KeySet::Matrix,
    KeySet::Air,
    KeySet::Joining,
    KeySet::Readings,
    KeySet::Rotation,
    KeySet::Care,
    KeySet::Power,
    KeySet::Torn,
    KeySet::Noise,
    KeySet::LinkDown,
    KeySet::Kick,
    KeySet::Rekey,
    KeySet::Replay,
    KeySet::Delay,
    KeySet::FalseJoins,
];

impl KeySet {
    /// All tables.
    #[tactic(auto, unfolding(crate::specs::Keys::all_tables))]
    pub fn all() -> &'static [KeySet]
        ensures { result.now ≡ all_tables }
    {
        &TABLES
    }

    /// Where the keys of the table stand.
    pub fn word(self) -> &'static str
        ensures { result.now ≡ set_word self }
    {
        match self {
            KeySet::Top => "outside all tables",
            KeySet::Street => "in [place] with kind = \"street\"",
            KeySet::Grid => "in [place] with kind = \"grid\"",
            KeySet::Tower => "in [place] with kind = \"tower\"",
            KeySet::Scatter => "in [place] with kind = \"scatter\"",
            KeySet::Matrix => "in [place] with kind = \"matrix\"",
            KeySet::Air => "in [air]",
            KeySet::Joining => "in [joining]",
            KeySet::Readings => "in [readings]",
            KeySet::Rotation => "in [rotation]",
            KeySet::Care => "in [care]",
            KeySet::Power => "in [[at]] with what = \"power\"",
            KeySet::Torn => "in [[at]] with what = \"torn\"",
            KeySet::Noise => "in [[at]] with what = \"noise\"",
            KeySet::LinkDown => "in [[at]] with what = \"link\"",
            KeySet::Kick => "in [[at]] with what = \"kick\"",
            KeySet::Rekey => "in [[at]] with what = \"rekey\"",
            KeySet::Replay => "in [[at]] with what = \"replay\"",
            KeySet::Delay => "in [[at]] with what = \"delay\"",
            KeySet::FalseJoins => "in [[at]] with what = \"false_joins\"",
        }
    }

    /// The keys that the table may have.
    pub fn keys(self) -> &'static [Key]
        ensures { result.now ≡ keys_of self }
    {
        match self {
            KeySet::Top => &TOP,
            KeySet::Street => &STREET,
            KeySet::Grid => &GRID,
            KeySet::Tower => &TOWER,
            KeySet::Scatter => &SCATTER,
            KeySet::Matrix => &MATRIX,
            KeySet::Air => &AIR,
            KeySet::Joining => &JOINING,
            KeySet::Readings => &READINGS,
            KeySet::Rotation => &ROTATION,
            KeySet::Care => &CARE,
            KeySet::Power => &POWER,
            KeySet::Torn => &TORN,
            KeySet::Noise => &NOISE,
            KeySet::LinkDown => &LINK_DOWN,
            KeySet::Kick => &KICK,
            KeySet::Rekey => &REKEY,
            KeySet::Replay => &REPLAY,
            KeySet::Delay => &DELAY,
            KeySet::FalseJoins => &FALSE_JOINS,
        }
    }
}

impl fmt::Display for KeySet {
    ghost use Rattle.std.specs.Prelude.{Some};

    ghost output = { λ set. Some (set_word set) };

    fn fmt<W: fmt::Write>(&self, f: &mut fmt::Formatter<W>) -> fmt::Result {
        f.write_str(self.word())
    }
}
