//! Which stories are accounted for, and in which section.
ghost use Rattle.std.specs.Prelude.{◌≡◌};
ghost use Rattle.story_accounts.specs.Sections as sections;

use line_record::StoryKind;

/// Which stories are accounted for.
#[derive(Clone, Copy, Debug, PartialEq, Eq)]
pub enum Chosen {
    /// All, the good ones in short, or left out where there are many.
    Failed,
    /// All, whole.
    All,
    /// That of a send, by its number from 1, whole.
    Send { send: u32 },
    /// Those that are about a node, whole.
    Node { node: u32 },
}

/// A section: which stories are in it.
#[derive(Clone, Copy, Debug, PartialEq, Eq)]
pub enum Section {
    /// Datagrams.
    Datagrams,
    /// Joinings and renewals of keys.
    Joinings,
    /// Orders.
    Orders,
    /// Octets that no node sent.
    Injections,
    /// Broadcasts.
    Broadcasts,
    /// Path requests.
    Walks,
}

/// All sections, in their order.
pub const SECTIONS: [Section; 6] = [
    Section::Datagrams,
    Section::Joinings,
    Section::Orders,
    Section::Injections,
    Section::Broadcasts,
    Section::Walks,
];

/// Whether stories of a kind are in a section.
pub fn section_kind(section: Section, kind: StoryKind) -> bool
    ensures { result ≡ sections.section_kind section kind }
{
    match kind {
        StoryKind::Datagram => is_datagrams(section),
        StoryKind::Joining => is_joinings(section),
        StoryKind::Renewal => is_joinings(section),
        StoryKind::Order => is_orders(section),
        StoryKind::Injection => is_injections(section),
        StoryKind::Broadcast => is_broadcasts(section),
        StoryKind::Walk => is_walks(section),
        _ => false,
    }
}

fn is_datagrams(section: Section) -> bool
    ensures { result ≡ sections.is_datagrams section }
{
    match section {
        Section::Datagrams => true,
        _ => false,
    }
}

fn is_joinings(section: Section) -> bool
    ensures { result ≡ sections.is_joinings section }
{
    match section {
        Section::Joinings => true,
        _ => false,
    }
}

fn is_orders(section: Section) -> bool
    ensures { result ≡ sections.is_orders section }
{
    match section {
        Section::Orders => true,
        _ => false,
    }
}

fn is_injections(section: Section) -> bool
    ensures { result ≡ sections.is_injections section }
{
    match section {
        Section::Injections => true,
        _ => false,
    }
}

/// Whether a section is that of broadcasts, of which nothing is asked.
pub fn is_broadcasts(section: Section) -> bool
    ensures { result ≡ sections.is_broadcasts section }
{
    match section {
        Section::Broadcasts => true,
        _ => false,
    }
}

fn is_walks(section: Section) -> bool
    ensures { result ≡ sections.is_walks section }
{
    match section {
        Section::Walks => true,
        _ => false,
    }
}

/// The title of a section.
pub fn section_title(section: Section) -> &'static str
    ensures { result.now ≡ sections.section_title section }
{
    match section {
        Section::Datagrams => "Datagrams",
        Section::Joinings => "Joinings and keys",
        Section::Orders => "Orders",
        Section::Injections => "Injected octets",
        Section::Broadcasts => "Broadcasts",
        Section::Walks => "Path requests",
    }
}

/// What a good story of a section is called.
pub fn good_word(section: Section) -> &'static str
    ensures { result.now ≡ sections.good_word section }
{
    match section {
        Section::Datagrams => " came",
        Section::Joinings => " done",
        Section::Orders => " heard",
        Section::Injections => " refused",
        Section::Broadcasts => "",
        Section::Walks => " answered",
    }
}

/// Whether good stories are accounted for in short, or left out where there are many.
pub fn is_brief(chosen: Chosen) -> bool
    ensures { result ≡ sections.is_brief chosen }
{
    match chosen {
        Chosen::Failed => true,
        _ => false,
    }
}

/// Whether only some stories are chosen.
pub fn is_part(chosen: Chosen) -> bool
    ensures { result ≡ sections.is_part chosen }
{
    match chosen {
        Chosen::Send { .. } => true,
        Chosen::Node { .. } => true,
        _ => false,
    }
}
