//! Writes units.
ghost use Rattle.std.specs.Prelude.{ℕ, ◌≡◌, ◌≤◌, ◌+◌, ◌++◌, List, length};
ghost use Rattle.mesh_header.specs.Pieces.{IsPiece};
ghost use Rattle.mesh_header.specs.Grammar.{IsAllowed, IsUnit, Spells, spelled_length, piece_spelling, spelling};
ghost use Rattle.plc_base.specs.declared.limits.TheConstants.{LONGEST_FRAME};

use crate::meshes::write_mesh;
use crate::piece::Piece;
use crate::unit::Unit;
use plc_base::FrameBuf;

#[tactic(auto, unfolding(crate::specs::Grammar::piece_spelling))]
fn write_piece(piece: &Piece<'_>, out: &mut FrameBuf)
    requires { length out.old + (5 + length piece.now.octets) ≤ LONGEST_FRAME }
    ensures spelled { out.new ≡ out.old ++ piece_spelling piece.now }
    ensures longer { length out.new ≡ length out.old + (5 + length piece.now.octets) }
    ensures rule { IsPiece piece.now }
{
    let size = piece.size();
    let offset = piece.offset();
    if offset == 0 {
        out.push_be_u16(0xC000 + size);
        out.push_be_u16(piece.tag());
        out.push(0x41);
    } else {
        out.push_be_u16(0xE000 + size);
        out.push_be_u16(piece.tag());
        out.push(offset);
    }
    out.append(piece.octets());
}

/// Writes the one spelling of the unit, which replaces what `out` held.
///
/// A whole datagram has 1 to 375 octets and a command alone a code of 1 to 5; the spelling has at most 400 octets.
pub fn write_unit(unit: &Unit<'_>, out: &mut FrameBuf)
    requires allowed { IsAllowed unit.now }
    requires room { spelled_length unit.now ≤ LONGEST_FRAME }
    ensures spelled { Spells unit.now out.new }
    ensures longer { length out.new ≡ spelled_length unit.now }
    // A value has one spelling.
    ensures one_spelling { (octets : List ℕ) → Spells unit.now octets → octets ≡ out.new }
{
    out.clear();
    append_unit(unit, out);
}

/// Appends the one spelling of the unit, as [`write_unit`] writes it.
#[tactic(auto, using(crate::proofs::Headers::hops_joins))]
pub fn append_unit(unit: &Unit<'_>, out: &mut FrameBuf)
    requires allowed { IsAllowed unit.now }
    requires room { length out.old + spelled_length unit.now ≤ LONGEST_FRAME }
    ensures spelled { out.new ≡ out.old ++ spelling unit.now }
    ensures longer { length out.new ≡ length out.old + spelled_length unit.now }
    ensures unit { IsUnit unit.now }
{
    match unit {
        Unit::Whole { mesh, octets } => {
            write_mesh(mesh, out);
            out.push(0x41);
            out.append(octets.octets());
        }
        Unit::Part { mesh, piece } => {
            write_mesh(mesh, out);
            write_piece(piece, out);
        }
        Unit::Carried { mesh, body } => {
            write_mesh(mesh, out);
            out.push(0x40);
            out.push(2);
            out.append(body.octets());
        }
        Unit::Local { code, body } => {
            out.push(0x40);
            out.push(*code);
            out.append(body.octets());
        }
    }
}
