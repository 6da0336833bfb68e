//! The tag of the next datagram that is cut into pieces.
ghost use Rattle.std.specs.Prelude.{◌≡◌, Some, is_ok, IfOk, OnOk, OnErr};
ghost use Rattle.plc_base.specs.Keeper.{Stores, OutsideStays};
ghost use Rattle.std.specs.FinMap.{get};
ghost use Rattle.fragment_buffers.specs.NextTag.{tag_in, tag_slot, AgreesWith, tag_after, tag_write, take_write, tag_left};

use mesh_header::LONGEST_WHOLE;
use plc_base::{BadStore, Failed, Keeper};
use std::marker::Model;
use store_tables::NumberSlot;

/// Names the pieces of each datagram that is cut by a tag of its own, even over losses of power: the next tag is always stored
/// (the datagram tag of RFC 4944, 5.3).
///
/// A contract sees the tag.
#[derive(Drop, Debug)]
pub struct NextTag {
    tag: u16,
}

impl Model for NextTag {
    ghost use Rattle.std.specs.Prelude.{ℕ};

    ghost Value = { ℕ };

    ghost view = { λ t. t.tag };
}

/// Where the tag is stored.
const TAG: NumberSlot = NumberSlot {
    slot: 4,
    width: 2,
    first: 0,
    least: 0,
};

impl NextTag {
    /// The tag that the record at slot 4 gives, 0 where none is stored.
    ///
    /// BadStore exactly where the record has another length than 2 octets.
    pub fn open<K: Keeper>(keeper: &K) -> Result<NextTag, BadStore>
        ensures tag { result ≡ tag_in (get (K.store keeper.now).records tag_slot) }
    {
        let tag = TAG.read(keeper)? as u16;
        Ok(NextTag { tag })
    }

    /// The tag.
    pub fn tag(&self) -> u16
        ensures { result ≡ self.now }
    {
        self.tag
    }

    /// Stores the tag after this one, and then holds it.
    ///
    /// Only a failed put is an error. The tag is then as it was, but may not be used until it is opened again.
    pub fn advance<K: Keeper>(&mut self, keeper: &mut K) -> Result<(), Failed>
        ensures tag { OnOk result (self.new ≡ tag_after self.old) }
        ensures same { OnErr result (self.new ≡ self.old) }
        ensures store { Stores (K.store keeper.old) (Some (tag_write self.old)) (is_ok result) (K.store keeper.new) }
        ensures kept { OnOk result (AgreesWith self.new (K.store keeper.new).records) }
        ensures elsewhere { OutsideStays 4 4 (K.store keeper.old) (K.store keeper.new) }
    {
        let next = self.tag.wrapping_add(1);
        TAG.store(keeper, u32::from(next))?;
        self.tag = next;
        Ok(())
    }

    /// The tag of a datagram of this many octets. Where it goes in pieces, the tag after this one is stored and then held.
    ///
    /// Only a failed put is an error. The tag is then as it was, but may not be used until it is opened again.
    pub fn take<K: Keeper>(&mut self, keeper: &mut K, octets: usize) -> Result<u16, Failed>
        requires kept { AgreesWith self.old (K.store keeper.old).records }
        ensures tag { IfOk result (λ tag. tag ≡ self.old) }
        ensures next { OnOk result (self.new ≡ tag_left octets self.old) }
        ensures same { OnErr result (self.new ≡ self.old) }
        ensures store { Stores (K.store keeper.old) (take_write octets self.old) (is_ok result) (K.store keeper.new) }
        ensures kept { OnOk result (AgreesWith self.new (K.store keeper.new).records) }
        ensures elsewhere { OutsideStays 4 4 (K.store keeper.old) (K.store keeper.new) }
    {
        let tag = self.tag;
        if octets <= LONGEST_WHOLE {
            return Ok(tag);
        }
        self.advance(keeper)?;
        Ok(tag)
    }
}
