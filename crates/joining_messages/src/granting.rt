//! Reads and writes the parameter list of a grant.
ghost use Rattle.std.specs.Prelude.{ℕ, ◌≡◌, ◌≤◌, ◌<◌, ◌+◌, ◌∷◌, ◌++◌, ◌↔◌, List, length, true, false, IsSome, IsTrue, IfSome, MatchOption, Some, None};
ghost use Rattle.byteorder.specs.Endian.{big_bytes};
ghost use Rattle.plc_base.specs.Addresses.{IsAddress};
ghost use Rattle.plc_base.specs.Faults.{ReadsWhen};
ghost use Rattle.plc_base.specs.Fields.{octet, after};
ghost use Rattle.plc_base.specs.Grant.{Granted};
ghost use Rattle.joining_messages.specs.Reader.{grant_in};
ghost use Rattle.joining_messages.specs.Grants.{IsGranted, IsPlace, SpellsGrant, grant_spelling, key_then, stands, address_stands, index_stands, sixteen_stand};
ghost use Rattle.joining_messages.specs.Grants.{head_stands, key_stands, is_parameter_list};

use plc_base::{EapBuf, Grant, Key, KeyIndex, Short, octet_at, octets_at, two_at};

// This octet, at its place.
#[tactic(auto, unfolding(crate::specs::Grants::stands))]
fn expect(octets: &[u8], at: usize, octet: u8) -> Option<()>
    requires { at ≤ 100 }
    ensures { ReadsWhen (stands at octet octets.now) result
        (λ _. (after at octets.now ≡ octet ∷ after (at + 1) octets.now)) }
{
    if octet_at(octets, at).ok()? != octet {
        return None;
    }
    Some(())
}

#[tactic(auto, unfolding(crate::specs::Grants::address_stands))]
fn address_at(octets: &[u8], at: usize) -> Option<Short>
    requires { at ≤ 100 }
    ensures { ReadsWhen (address_stands at octets.now) result
        (λ x. IsAddress x × (after at octets.now ≡ big_bytes 2 x ++ after (at + 2) octets.now)) }
{
    Short::new(two_at(octets, at).ok()?)
}

#[tactic(auto, unfolding(crate::specs::Grants::index_stands))]
fn index_at(octets: &[u8], at: usize) -> Option<KeyIndex>
    requires { at ≤ 100 }
    ensures { ReadsWhen (index_stands at octets.now) result
        (λ x. (x ≤ 1) × (x ≡ octet at octets.now) × (after at octets.now ≡ x ∷ after (at + 1) octets.now)) }
{
    KeyIndex::new(octet_at(octets, at).ok()?)
}

#[tactic(auto, unfolding(crate::specs::Grants::sixteen_stand))]
fn sixteen_at(octets: &[u8], at: usize) -> Option<Key>
    requires { at ≤ 100 }
    ensures { ReadsWhen (sixteen_stand at octets.now) result
        (λ key. (length key.0 ≡ 16) × (after at octets.now ≡ key.0 ++ after (at + 16) octets.now)) }
{
    Some(Key(octets_at(octets, at).ok()?))
}

// The parameters of the address and of the active index.
#[tactic(auto, unfolding(crate::specs::Grants::head_stands), using(plc_base::proofs::Places::after_none))]
fn head_of(octets: &[u8]) -> Option<(Short, KeyIndex)>
    ensures { ReadsWhen (head_stands octets.now) result
        (λ x. IsAddress x.0 × (x.1 ≤ 1) × (x.1 ≡ octet 6 octets.now)
        × (octets.now ≡ 1 ∷ 2 ∷ big_bytes 2 x.0 ++ (2 ∷ 1 ∷ x.1 ∷ after 7 octets.now))) }
{
    expect(octets, 0, 1)?;
    expect(octets, 1, 2)?;
    let address = address_at(octets, 2)?;
    expect(octets, 4, 2)?;
    expect(octets, 5, 1)?;
    let active = index_at(octets, 6)?;
    Some((address, active))
}

// The parameter of the key at an index.
#[tactic(auto, unfolding(crate::specs::Grants::key_stands))]
fn key_at(octets: &[u8], at: usize, index: u8) -> Option<Key>
    requires { at ≤ 50 }
    ensures { ReadsWhen (key_stands at index octets.now) result
        (λ key. (length key.0 ≡ 16) × (after at octets.now ≡ 3 ∷ 0x11 ∷ index ∷ key.0 ++ after (at + 19) octets.now)) }
{
    expect(octets, at, 3)?;
    expect(octets, at + 1, 0x11)?;
    expect(octets, at + 2, index)?;
    sixteen_at(octets, at + 3)
}

// The grant that the octets spell, where they pass the test.
#[tactic(auto, using(plc_base::proofs::Places::after_all))]
fn grant_of(octets: &[u8]) -> Option<Grant>
    ensures found { IfSome result (λ grant. SpellsGrant grant octets.now) }
    ensures exact { MatchOption result (is_parameter_list octets.now ≡ false)
        (λ _. is_parameter_list octets.now ≡ true) }
{
    let (address, active) = head_of(octets)?;
    let keys = if octets.len() == 26 {
        let key = key_at(octets, 7, active.number())?;
        if active.number() == 0 {
            [Some(key), None]
        } else {
            [None, Some(key)]
        }
    } else if octets.len() == 45 {
        [Some(key_at(octets, 7, 0)?), Some(key_at(octets, 26, 1)?)]
    } else {
        return None;
    };
    Some(Grant {
        address,
        active,
        keys,
    })
}

/// The grant that the octets spell, all of them. None exactly where they are no parameter list.
pub fn read_grant(octets: &[u8]) -> Option<Grant>
    // What is read is spelled so.
    ensures found { IfSome result (λ grant. SpellsGrant grant octets.now) }
    // What is read is the grant that stands in the octets, if they are one.
    ensures value { grant_in octets.now ≡ result }
    // What is spelled so is read.
    ensures only { (grant : Granted) → SpellsGrant grant octets.now → result ≡ Some grant }
    // The test says whether there is one.
    ensures exact { IsSome result ↔ IsTrue (is_parameter_list octets.now) }
    // A spelling is of one value.
    ensures one_value { (a b : Granted) → SpellsGrant a octets.now → SpellsGrant b octets.now → a ≡ b }
{
    grant_of(octets)
}

fn write_key(index: u8, key: &Option<Key>, out: &mut EapBuf)
    requires { length out.old + 19 ≤ 128 }
    ensures joins { (rest : List ℕ) → out.new ++ rest ≡ out.old ++ key_then index key.now rest }
    ensures longer { length out.new ≤ length out.old + 19 }
    ensures place { IsPlace key.now }
{
    if let Some(key) = key {
        out.push(3);
        out.push(0x11);
        out.push(index);
        out.append(&key.0);
    }
}

/// Appends the one spelling of the grant: 26 octets with one key, 45 with two.
pub fn write_grant(grant: &Grant, out: &mut EapBuf)
    requires room { length out.old + 45 ≤ 128 }
    ensures spelled { out.new ≡ out.old ++ grant_spelling grant.now }
    ensures grant { IsGranted grant.now }
    // A value has one spelling.
    ensures one_spelling { (octets : List ℕ) → SpellsGrant grant.now octets → out.new ≡ out.old ++ octets }
{
    out.push(1);
    out.push(2);
    out.push_be_u16(grant.address.number());
    out.push(2);
    out.push(1);
    out.push(grant.active.number());
    write_key(0, &grant.keys[0], out);
    write_key(1, &grant.keys[1], out);
}
