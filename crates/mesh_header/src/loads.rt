//! What stands after a mesh header, and commands alone.
ghost use Rattle.std.specs.Prelude.{◌≡◌, ◌≤◌, ◌<◌, ◌+◌, ◌-◌, ◌*◌, ◌%◌, ◌∷◌, ◌++◌, length, Ok};
ghost use Rattle.byteorder.specs.Endian.{big_bytes};
ghost use Rattle.plc_base.specs.Fields.{octet, two, after};
ghost use Rattle.plc_base.specs.Faults.{ReadsUnless};
ghost use Rattle.mesh_header.specs.Pieces.{IsPiece};
ghost use Rattle.mesh_header.specs.Grammar.{IsMesh, IsUnit, mesh_then, piece_spelling, spelling};
ghost use Rattle.mesh_header.specs.Faults.{size_fault, octets_fault, tag_fault, octet_fault, data_fault, first_piece_fault, later_piece_fault, carried_fault};
ghost use Rattle.mesh_header.specs.Faults.{local_fault, load_fault};
ghost use Rattle.mesh_header.specs.declared.unit.TheConstants.{LONGEST_WHOLE};
ghost use Rattle.plc_base.specs.declared.limits.TheConstants.{LONGEST_DATAGRAM, LONGEST_FRAME};

use crate::LONGEST_WHOLE;
use crate::fault::{UnitFault, UnitFaultKind};
use crate::piece::Piece;
use crate::unit::{Mesh, Unit};
use plc_base::{Fault, LONGEST_DATAGRAM, OctetRef, octet_at, rest_at, two_at};

#[tactic(auto, unfolding(crate::specs::Faults::data_fault))]
fn data_of(octets: &[u8], at: usize) -> Result<OctetRef<'_>, UnitFault>
    requires within { at ≤ length octets.now }
    requires frame { length octets.now ≤ LONGEST_FRAME }
    ensures { ReadsUnless (data_fault at octets.now) result
        (λ x. (0 < length x) × (length x ≤ LONGEST_WHOLE) × (x ≡ after at octets.now)) }
{
    let rest = rest_at(octets, at);
    if rest.is_empty() || rest.len() > LONGEST_WHOLE {
        return Err(Fault::at(UnitFaultKind::DataSize, at));
    }
    Ok(OctetRef::new(rest))
}

// The size of a piece, which stands above a base in two octets.
#[tactic(auto, unfolding(crate::specs::Faults::size_fault, plc_base::specs::Faults::cut_off))]
fn size_at(octets: &[u8], base: u16, at: usize) -> Result<u16, UnitFault>
    requires low { base ≤ octet at octets.now * 256 }
    requires place { at ≤ 100 }
    ensures { ReadsUnless (size_fault base at octets.now) result
        (λ x. (0 < x) × (x ≤ LONGEST_DATAGRAM) × (x ≡ two at octets.now - base)
        × (after at octets.now ≡ big_bytes 2 (base + x) ++ after (at + 2) octets.now)) }
{
    let size = two_at(octets, at)? - base;
    if size == 0 || size > LONGEST_DATAGRAM as u16 {
        return Err(Fault::at(UnitFaultKind::Size, at));
    }
    Ok(size)
}

#[tactic(auto, unfolding(crate::specs::Faults::tag_fault, plc_base::specs::Faults::cut_off))]
fn tag_at(octets: &[u8], at: usize) -> Result<u16, UnitFault>
    requires { at ≤ 100 }
    ensures { ReadsUnless (tag_fault at octets.now) result
        (λ x. (after at octets.now ≡ big_bytes 2 x ++ after (at + 2) octets.now)) }
{
    Ok(two_at(octets, at)?)
}

#[tactic(auto, unfolding(crate::specs::Faults::octet_fault, plc_base::specs::Faults::cut_off))]
fn one_at(octets: &[u8], at: usize) -> Result<u8, UnitFault>
    requires { at ≤ 100 }
    ensures { ReadsUnless (octet_fault at octets.now) result
        (λ x. (x ≡ octet at octets.now) × (at + 1 ≤ length octets.now)
        × (after at octets.now ≡ x ∷ after (at + 1) octets.now)) }
{
    Ok(octet_at(octets, at)?)
}

#[tactic(auto, unfolding(crate::specs::Faults::octets_fault))]
fn piece_octets(octets: &[u8], size: u16, offset: u8, at: usize) -> Result<OctetRef<'_>, UnitFault>
    requires within { at ≤ length octets.now }
    requires frame { length octets.now ≤ LONGEST_FRAME }
    ensures { ReadsUnless (octets_fault size offset at octets.now) result
        (λ x. (0 < length x) × (length x ≤ LONGEST_FRAME) × (offset * 8 + length x ≤ size)
        × (offset * 8 + length x < size → length x % 8 ≡ 0) × (x ≡ after at octets.now)) }
{
    let rest = rest_at(octets, at);
    let end = offset as usize * 8 + rest.len();
    if rest.is_empty() || end > size as usize || (end < size as usize && rest.len() % 8 != 0) {
        return Err(Fault::at(UnitFaultKind::PieceForm, at));
    }
    Ok(OctetRef::new(rest))
}

#[tactic(auto, unfolding(crate::specs::Faults::first_piece_fault, crate::specs::Grammar::piece_spelling))]
fn first_piece(octets: &[u8], at: usize) -> Result<Piece<'_>, UnitFault>
    requires low { 0xC0 ≤ octet at octets.now }
    requires place { at ≤ 6 }
    requires frame { length octets.now ≤ LONGEST_FRAME }
    ensures { ReadsUnless (first_piece_fault at octets.now) result
        (λ x. IsPiece x × (after at octets.now ≡ piece_spelling x)) }
{
    let size = size_at(octets, 0xC000, at)?;
    let tag = tag_at(octets, at + 2)?;
    let dispatch = one_at(octets, at + 4)?;
    if dispatch != 0x41 {
        return Err(Fault::at(UnitFaultKind::Dispatch, at + 4));
    }
    let octets = piece_octets(octets, size, 0, at + 5)?;
    Ok(Piece::new(size, tag, 0, octets.octets()).unwrap())
}

#[tactic(auto, unfolding(crate::specs::Faults::later_piece_fault, crate::specs::Grammar::piece_spelling))]
fn later_piece(octets: &[u8], at: usize) -> Result<Piece<'_>, UnitFault>
    requires low { 0xE0 ≤ octet at octets.now }
    requires place { at ≤ 6 }
    requires frame { length octets.now ≤ LONGEST_FRAME }
    ensures { ReadsUnless (later_piece_fault at octets.now) result
        (λ x. IsPiece x × (after at octets.now ≡ piece_spelling x)) }
{
    let size = size_at(octets, 0xE000, at)?;
    let tag = tag_at(octets, at + 2)?;
    let offset = one_at(octets, at + 4)?;
    if offset == 0 {
        return Err(Fault::at(UnitFaultKind::PieceForm, at + 5));
    }
    let octets = piece_octets(octets, size, offset, at + 5)?;
    Ok(Piece::new(size, tag, offset, octets.octets()).unwrap())
}

// A command after a mesh header, from its code on.
#[tactic(auto, unfolding(crate::specs::Faults::carried_fault))]
fn carried(octets: &[u8], at: usize) -> Result<OctetRef<'_>, UnitFault>
    requires place { at ≤ 7 }
    requires frame { length octets.now ≤ LONGEST_FRAME }
    ensures { ReadsUnless (carried_fault at octets.now) result
        (λ x. (after at octets.now ≡ 2 ∷ x)) }
{
    let code = one_at(octets, at)?;
    if code != 2 {
        return Err(Fault::at(UnitFaultKind::Dispatch, at));
    }
    Ok(OctetRef::new(rest_at(octets, at + 1)))
}

// A command alone, from its code on.
#[tactic(auto, unfolding(crate::specs::Faults::local_fault))]
pub(crate) fn local(octets: &[u8], at: usize) -> Result<Unit<'_>, UnitFault>
    requires place { at ≤ 7 }
    requires frame { length octets.now ≤ LONGEST_FRAME }
    ensures { ReadsUnless (local_fault at octets.now) result
        (λ x. IsUnit x × (0x40 ∷ after at octets.now ≡ spelling x)) }
{
    let code = one_at(octets, at)?;
    if code == 0 || code > 5 {
        return Err(Fault::at(UnitFaultKind::Dispatch, at));
    }
    Ok(Unit::Local {
        code,
        body: OctetRef::new(rest_at(octets, at + 1)),
    })
}

// What stands after a mesh header.
#[tactic(auto, unfolding(crate::specs::Faults::load_fault))]
pub(crate) fn load_of(octets: &[u8], mesh: Mesh, at: usize) -> Result<Unit<'_>, UnitFault>
    requires mesh { IsMesh mesh }
    requires place { at ≤ 6 }
    requires frame { length octets.now ≤ LONGEST_FRAME }
    ensures { ReadsUnless (load_fault at octets.now) result
        (λ x. IsUnit x × (mesh_then mesh (after at octets.now) ≡ spelling x)) }
{
    match one_at(octets, at)? {
        0x41 => Ok(Unit::Whole {
            mesh,
            octets: data_of(octets, at + 1)?,
        }),
        0x40 => Ok(Unit::Carried {
            mesh,
            body: carried(octets, at + 1)?,
        }),
        0xC0..=0xC7 => Ok(Unit::Part {
            mesh,
            piece: first_piece(octets, at)?,
        }),
        0xE0..=0xE7 => Ok(Unit::Part {
            mesh,
            piece: later_piece(octets, at)?,
        }),
        _ => Err(Fault::at(UnitFaultKind::Dispatch, at)),
    }
}
