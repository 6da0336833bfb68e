//! Nodes that are nobody's meter.
ghost use Rattle.std.specs.Prelude.{◌≡◌, ◌<◌, IfSome, OnOk, length, position};
ghost use Rattle.line_readings.specs.Spares as spares;

use line_script::number_within;
use std::alloc::AllocError;

fn first_space(octets: &[u8]) -> Option<usize>
    ensures value { result ≡ position spares.is_space octets.now }
    ensures bound { IfSome result (λ p. p < length octets.now) }
{
    octets.iter().position(|octet| *octet == b' ')
}

// The node that the words of a remark name, by what comes after its time.
#[tactic(auto, unfolding(crate::specs::Spares::spare_after))]
fn spare_after(octets: &[u8]) -> Option<u32>
    ensures { result ≡ spares.spare_after octets.now }
{
    match octets.strip_prefix(b" spare node=") {
        Some(node) => number_within(0, u32::MAX, node),
        None => None,
    }
}

fn spare_in_remark(octets: &[u8]) -> Option<u32>
    ensures { result ≡ spares.spare_in_remark octets.now }
{
    match first_space(octets) {
        None => None,
        Some(place) => spare_after(octets.split_at(place).1),
    }
}

/// The node that a line says is nobody's meter: `#@ TIME spare node=N`.
#[tactic(auto, unfolding(crate::specs::Spares::spare_in))]
pub fn spare_in(line: &[u8]) -> Option<u32>
    ensures { result ≡ spares.spare_in line.now }
{
    match line.strip_prefix(b"#@ ") {
        Some(remark) => spare_in_remark(remark),
        None => None,
    }
}

/// Adds the node that a line says is nobody's meter, if it names one. It fails only where memory runs out.
pub fn push_spare(list: &mut Vec<u32>, line: &[u8]) -> Result<(), AllocError>
    ensures { OnOk result (list.new.items ≡ spares.with_spare (spares.spare_in line.now) list.old.items) }
{
    let Some(node) = spare_in(line) else {
        return Ok(());
    };
    list.push(node)?;
    Ok(())
}
