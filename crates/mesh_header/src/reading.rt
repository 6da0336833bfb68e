//! Reads units.
ghost use Rattle.std.specs.Prelude.{◌≡◌, ◌≤◌, ◌<◌, ◌∷◌, length, IfOk, MatchResult, Some, None, Ok};
ghost use Rattle.std.specs.Result.{result_ok};
ghost use Rattle.plc_base.specs.Fields.{octet, after};
ghost use Rattle.mesh_header.specs.Grammar.{Spells, spelled_length};
ghost use Rattle.mesh_header.specs.Reader.{unit_in};
ghost use Rattle.mesh_header.specs.Faults.{unit_fault};
ghost use Rattle.mesh_header.specs.declared.unit.Unit.{Unit};
ghost use Rattle.plc_base.specs.declared.limits.TheConstants.{LONGEST_FRAME};

use crate::fault::{UnitFault, UnitFaultKind};
use crate::loads::{load_of, local};
use crate::meshes::mesh_of;
use crate::unit::Unit;
use plc_base::Fault;

#[tactic(auto, unfolding(plc_base::specs::Fields::octet), using(plc_base::proofs::Places::first_is))]
fn first_of(octets: &[u8]) -> u8
    requires { 0 < length octets.now }
    ensures value { result ≡ octet 0 octets.now }
    ensures there { octets.now ≡ result ∷ after 1 octets.now }
{
    octets[0]
}

// The unit that the octets spell, or the first fault.
fn unit_of(octets: &[u8]) -> Result<Unit<'_>, UnitFault>
    requires { length octets.now ≤ LONGEST_FRAME }
    ensures found { IfOk result (λ unit. Spells unit octets.now) }
    ensures exact { MatchResult result (λ unit. unit_fault octets.now ≡ None) (λ e. unit_fault octets.now ≡ Some e) }
{
    if octets.is_empty() {
        return Err(Fault::at(UnitFaultKind::Empty, 0));
    }
    match first_of(octets) {
        first @ 0x80..=0xBF => {
            let (mesh, at) = mesh_of(octets, first)?;
            load_of(octets, mesh, at)
        }
        0x40 => local(octets, 1),
        _ => Err(Fault::at(UnitFaultKind::Dispatch, 0)),
    }
}

/// The unit that the octets spell, all of them. Where they spell none, the first fault from the left, with its place.
///
/// A frame's payload has at most 381 octets; here at most 400 are allowed.
pub fn read_unit(octets: &[u8]) -> Result<Unit<'_>, UnitFault>
    requires { length octets.now ≤ LONGEST_FRAME }
    // What is read is spelled so.
    ensures found { IfOk result (λ unit. Spells unit octets.now) }
    // What is read is the unit that stands in the octets, if they are one.
    ensures value { unit_in octets.now ≡ result_ok result }
    ensures length { IfOk result (λ unit. spelled_length unit ≡ length octets.now) }
    // What is spelled so is read.
    ensures only { (unit : Unit) → Spells unit octets.now → result ≡ Ok unit }
    // A fault is the first one.
    ensures exact { MatchResult result (λ unit. unit_fault octets.now ≡ None) (λ e. unit_fault octets.now ≡ Some e) }
    // A spelling is of one value.
    ensures one_value { (a b : Unit) → Spells a octets.now → Spells b octets.now → a ≡ b }
{
    unit_of(octets)
}
