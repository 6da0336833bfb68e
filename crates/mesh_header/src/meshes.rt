//! Mesh headers.
ghost use Rattle.std.specs.Prelude.{ℕ, ◌≡◌, ◌≤◌, ◌<◌, ◌+◌, ◌∷◌, ◌++◌, List, length, Ok};
ghost use Rattle.plc_base.specs.Fields.{octet, after};
ghost use Rattle.plc_base.specs.Faults.{ReadsUnless};
ghost use Rattle.mesh_header.specs.Grammar.{IsMesh, header_length, hops_then, mesh_then};
ghost use Rattle.mesh_header.specs.Faults.{hops_fault, origin_at, header_fault};
ghost use Rattle.plc_base.specs.declared.limits.TheConstants.{LONGEST_FRAME};

use crate::fault::{UnitFault, UnitFaultKind};
use crate::unit::Mesh;
use plc_base::{Fault, FrameBuf, address_at, octet_at};

// The hops, and where the origin begins.
#[tactic(auto, unfolding(crate::specs::Faults::hops_fault, plc_base::specs::Faults::cut_off, crate::specs::Faults::origin_at))]
fn hops_of(octets: &[u8], first: u8) -> Result<(u8, usize), UnitFault>
    requires there { octets.now ≡ first ∷ after 1 octets.now }
    requires is { first ≡ octet 0 octets.now }
    requires low { 0x80 ≤ first }
    requires high { first < 0xC0 }
    ensures { ReadsUnless (hops_fault octets.now) result
        (λ x. (x.1 ≡ origin_at octets.now) × (x.1 ≤ 2) × (octets.now ≡ hops_then x.0 (after x.1 octets.now))) }
{
    if first < 0xB0 {
        return Err(Fault::at(UnitFaultKind::AddressKind, 0));
    }
    if first < 0xBF {
        return Ok((first - 0xB0, 1));
    }
    let hops = octet_at(octets, 1)?;
    if hops < 15 {
        return Err(Fault::at(UnitFaultKind::HopForm, 1));
    }
    Ok((hops, 2))
}

// The mesh header, and where it ends.
#[tactic(auto, unfolding(crate::specs::Faults::header_fault))]
pub(crate) fn mesh_of(octets: &[u8], first: u8) -> Result<(Mesh, usize), UnitFault>
    requires there { octets.now ≡ first ∷ after 1 octets.now }
    requires is { first ≡ octet 0 octets.now }
    requires low { 0x80 ≤ first }
    requires high { first < 0xC0 }
    ensures { ReadsUnless (header_fault octets.now) result
        (λ x. (x.1 ≡ origin_at octets.now + 4) × (x.1 ≤ 6) × (x.1 ≤ length octets.now) × IsMesh x.0
        × (octets.now ≡ mesh_then x.0 (after x.1 octets.now))) }
{
    let (hops, at) = hops_of(octets, first)?;
    let origin = address_at(octets, at, UnitFaultKind::Address)?;
    let to = address_at(octets, at + 2, UnitFaultKind::Address)?;
    Ok((Mesh { hops, origin, to }, at + 4))
}

// Writes a mesh header, before whatever is to follow it.
#[tactic(auto, unfolding(crate::specs::Grammar::hops_then))]
pub(crate) fn write_mesh(mesh: &Mesh, out: &mut FrameBuf)
    requires { length out.old + header_length mesh.now.hops ≤ LONGEST_FRAME }
    ensures joins { (rest : List ℕ) → out.new ++ rest ≡ out.old ++ mesh_then mesh.now rest }
    ensures longer { length out.new ≡ length out.old + header_length mesh.now.hops }
    ensures mesh { IsMesh mesh.now }
{
    if mesh.hops < 15 {
        out.push(0xB0 + mesh.hops);
    } else {
        out.push(0xBF);
        out.push(mesh.hops);
    }
    out.push_be_u16(mesh.origin.number());
    out.push_be_u16(mesh.to.number());
}
