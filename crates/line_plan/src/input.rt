//! The description as it is read.
ghost use Rattle.std.specs.Prelude.{◌≡◌, ◌<◌, IfOk, IfErr, length, take, string_bytes};
ghost use Rattle.std.specs.Str.{valid_up_to};
ghost use Rattle.std.specs.Str.Lossy.{utf8_valid_len};
ghost use Rattle.plan_tables.specs.TextPlaces.{octet_place};
ghost use Rattle.line_plan.specs.declared.input.InputFault.TheVariants as inputs;
ghost use Rattle.line_plan.specs.OptionDescriptions.{GivesText, IsGiven, IsUnread};

use plan_tables::{TextPlace, octet_place};
use plc_base::Source;
use std::alloc::Global;
use std::str::Utf8Error;

/// A description has at most this many octets.
pub const MAX_DESCRIPTION: usize = 16_777_216;

/// Why there is no description.
#[derive(Clone, Copy, Debug, PartialEq, Eq)]
pub enum InputFault {
    /// The source failed.
    Read,
    /// It has more than 16,777,216 octets: where the first one too many stands.
    Long(TextPlace),
    /// It is no UTF-8: where the first octet stands that no character begins with.
    Text(TextPlace),
    Memory,
}

// Octets of a source.
#[derive(Drop)]
enum Given {
    // All that it gave.
    Whole(Vec<u8>),
    // More than a description has.
    More(Vec<u8>),
}

// Reads all octets of a source, or more than a description has.
fn read_octets<S: Source>(alloc: Global, source: &mut S) -> Result<Given, InputFault>
    ensures given { IfOk result (λ given. IsGiven (S.state source.old) (S.state source.new) given) }
    ensures refused { IfErr result (λ fault. IsUnread (S.state source.old) (S.state source.new) fault) }
{
    let mut octets: Vec<u8> = Vec::new(alloc);
    let mut piece = [0_u8; 4096];
    for turn in 0..u64::MAX {
        let count = match source.read(&mut piece) {
            Ok(count) => count,
            Err(_) => return Err(InputFault::Read),
        };
        if count == 0 {
            return Ok(Given::Whole(octets));
        }
        let Ok(()) = octets.extend_from_slice(&piece[..count]) else {
            return Err(InputFault::Memory);
        };
        if octets.len() > MAX_DESCRIPTION {
            return Ok(Given::More(octets));
        }
    }
    // Each turn reads an octet at least, so no source has this many turns.
    Err(InputFault::Memory)
}

// What is wrong with too many octets.
fn long(octets: &[u8]) -> InputFault
    requires { MAX_DESCRIPTION < length octets.now }
    ensures { result ≡ inputs.Long (octet_place (take MAX_DESCRIPTION octets.now)) }
{
    InputFault::Long(octet_place(octets, MAX_DESCRIPTION))
}

// What is wrong with octets that are no text.
#[tactic(auto, using(std::proofs::lemmas::Str::utf8_valid_len_le))]
fn no_text(octets: &[u8], fault: Utf8Error) -> InputFault
    requires { valid_up_to fault ≡ utf8_valid_len octets.now }
    ensures { result ≡ inputs.Text (octet_place (take (utf8_valid_len octets.now) octets.now)) }
{
    InputFault::Text(octet_place(octets, fault.valid_up_to()))
}

/// Reads all of a source.
pub fn read_text<S: Source>(alloc: Global, source: &mut S) -> Result<String, InputFault>
    // The text is all that the source gave, and nothing is left of it.
    ensures whole { IfOk result (λ text. GivesText (S.state source.old) (S.state source.new) (string_bytes text)) }
    // Each fault comes only for its reason.
    ensures refused { IfErr result (λ fault. IsUnread (S.state source.old) (S.state source.new) fault) }
{
    let octets = match read_octets(alloc, source) {
        Ok(Given::Whole(octets)) => octets,
        Ok(Given::More(octets)) => return Err(long(octets.as_slice())),
        Err(fault) => return Err(fault),
    };
    match String::from_utf8(octets) {
        Ok(text) => Ok(text),
        Err(error) => Err(no_text(error.as_bytes(), error.utf8_error())),
    }
}
