//! The tags that authenticate the messages of a joining, by what they were computed over.
ghost use Rattle.std.specs.Prelude.{◌≡◌, ◌<◌, ◌≤◌, ◌==◌, ◌++◌, ◌∷◌, [], length};
ghost use Rattle.plc_base.specs.Tags.{IsTag, blank_tag, tag_octets};

use crate::{Eui, Octets, RandomOctets};
use arrayvec::ArrayVec;
use std::marker::Model;

/// What a tag was computed over: at most 64 octets.
pub type TagText = Octets<64>;

/// The spelling of a tag: at most 158 octets.
pub type TagOctets = Octets<158>;

/// A tag between a joining node and the coordinator, named by the node and by what the tag was computed over (RFC 4764, 3.2
/// and 3.3).
#[derive(Debug, Drop, PartialEq, Eq)]
pub enum PairTag {
    /// MAC_P: by it the node shows that it holds the pair key.
    MacP {
        /// The node.
        eui: Eui,
        /// ID_P, ID_S, RAND_S, RAND_P.
        text: TagText,
    },
    /// MAC_S: by it the coordinator shows that it holds the pair key.
    MacS {
        /// The node.
        eui: Eui,
        /// ID_S, RAND_P.
        text: TagText,
    },
    /// The tag of the protected channel.
    Channel {
        /// The node.
        eui: Eui,
        /// RAND_P, of which the channel's key is made.
        rand_p: RandomOctets,
        /// The nonce: 0 from the coordinator, 1 from the node.
        nonce: u32,
        /// The packet's first 22 octets, which the tag covers.
        header: TagText,
        /// The plain text.
        text: TagText,
    },
}

impl Default for PairTag {
    /// A blank, for an unused place of a list.
    fn default() -> PairTag
        ensures { result ≡ blank_tag }
    {
        PairTag::MacS {
            eui: Eui([0; 8]),
            text: TagText::new(),
        }
    }
}

impl PairTag {
    /// The same tag again.
    pub fn copied(&self) -> PairTag
        ensures { result ≡ self.now }
    {
        match self {
            PairTag::MacP { eui, text } => PairTag::MacP {
                eui: *eui,
                text: text.copied(),
            },
            PairTag::MacS { eui, text } => PairTag::MacS {
                eui: *eui,
                text: text.copied(),
            },
            PairTag::Channel {
                eui,
                rand_p,
                nonce,
                header,
                text,
            } => PairTag::Channel {
                eui: *eui,
                rand_p: *rand_p,
                nonce: *nonce,
                header: header.copied(),
                text: text.copied(),
            },
        }
    }

    /// A spelling that no other tag has, so that tags can be keys of a map: which tag it is, and what it was computed over.
    pub fn spelling(&self) -> TagOctets
        ensures octets { result ≡ tag_octets self.now }
        ensures sound { IsTag self.now }
    {
        let mut octets = TagOctets::new();
        match self {
            PairTag::MacP { eui, text } => {
                octets.push(0);
                octets.append(&eui.0);
                octets.append(text.octets());
            }
            PairTag::MacS { eui, text } => {
                octets.push(1);
                octets.append(&eui.0);
                octets.append(text.octets());
            }
            PairTag::Channel {
                eui,
                rand_p,
                nonce,
                header,
                text,
            } => {
                octets.push(2);
                octets.append(&eui.0);
                octets.append(&rand_p.0);
                octets.push_be_u32(*nonce);
                octets.push(header.len() as u8);
                octets.append(header.octets());
                octets.append(text.octets());
            }
        }
        octets
    }
}

/// At most two tags. A contract sees the list of them.
#[derive(Debug, Drop)]
pub struct PairTags {
    items: ArrayVec<PairTag, 2>,
}

impl Model for PairTags {
    ghost use Rattle.std.specs.Prelude.{List};
    ghost use Rattle.plc_base.specs.declared.tags.PairTag.{PairTag};

    ghost Value = { List PairTag };

    ghost view = { λ t. t.items.items };
}

impl PairTags {
    /// No tag.
    pub fn new() -> PairTags
        ensures { result ≡ [] }
    {
        PairTags {
            items: ArrayVec::new(),
        }
    }

    /// The tags, in the order in which they were pushed.
    pub fn tags(&self) -> &[PairTag]
        ensures { result.now ≡ self.now }
    {
        self.items.as_slice()
    }

    /// How many tags there are.
    pub fn len(&self) -> usize
        ensures value { result ≡ length self.now }
        ensures most { result ≤ 2 }
    {
        self.items.len()
    }

    /// Whether there is no tag.
    pub fn is_empty(&self) -> bool
        ensures { result ≡ (length self.now == 0) }
    {
        self.items.is_empty()
    }

    /// Appends a tag.
    pub fn push(&mut self, tag: PairTag)
        requires { length self.old < 2 }
        ensures { self.new ≡ self.old ++ tag ∷ [] }
    {
        self.items.push(tag);
    }

    /// Drops all tags.
    pub fn clear(&mut self)
        ensures { self.new ≡ [] }
    {
        self.items.clear();
    }
}

impl Default for PairTags {
    /// No tag.
    fn default() -> PairTags
        ensures { result ≡ [] }
    {
        PairTags::new()
    }
}

/// The tags of one step: those that the node made, and those that it checked and found right.
#[derive(Debug, Drop)]
pub struct TagList {
    /// The tags that were made.
    pub made: PairTags,
    /// The tags that were checked and found right.
    pub opened: PairTags,
}

impl TagList {
    /// No tags.
    pub fn new() -> TagList
        ensures { result ≡ record { made = []; opened = [] } }
    {
        TagList {
            made: PairTags::new(),
            opened: PairTags::new(),
        }
    }

    /// Drops all tags.
    pub fn clear(&mut self)
        ensures { self.new ≡ record { made = []; opened = [] } }
    {
        self.made.clear();
        self.opened.clear();
    }
}

impl Default for TagList {
    /// No tags.
    fn default() -> TagList
        ensures { result ≡ record { made = []; opened = [] } }
    {
        TagList::new()
    }
}
