//! What octets are, where they are something: the readers of nodes, without their faults.
ghost use Rattle.std.specs.Prelude.{◌≡◌, ◌≤◌, length};
ghost use Rattle.plc_base.specs.declared.limits.TheConstants.{LONGEST_FRAME};
ghost use Rattle.mesh_header.specs.Reader as units;
ghost use Rattle.loadng_messages.specs.Reader as routes;
ghost use Rattle.joining_messages.specs.Reader as joinings;

use joining_messages::{JoinMessage, read_join};
use loadng_messages::{Message, read_message};
use mesh_header::{Unit, read_unit};

pub fn unit_in(octets: &[u8]) -> Option<Unit<'_>>
    requires { length octets.now ≤ LONGEST_FRAME }
    ensures { result ≡ units.unit_in octets.now }
{
    match read_unit(octets) {
        Ok(unit) => Some(unit),
        Err(_) => None,
    }
}

pub fn message_in(octets: &[u8]) -> Option<Message>
    ensures { result ≡ routes.message_in octets.now }
{
    match read_message(octets) {
        Ok(message) => Some(message),
        Err(_) => None,
    }
}

pub fn join_in(octets: &[u8]) -> Option<JoinMessage>
    ensures { result ≡ joinings.join_in octets.now }
{
    match read_join(octets) {
        Ok(message) => Some(message),
        Err(_) => None,
    }
}
