//! Writes the fields of the four messages, and the texts of the two codes.
ghost use Rattle.std.specs.Prelude.{◌≡◌, ◌<◌, ◌≤◌, ◌+◌, ◌++◌, length};
ghost use Rattle.eap_psk.specs.Keys.{mac_p_text, mac_s_text};
ghost use Rattle.eap_psk.specs.Messages.{fourth_head, granting_text, head, third_head};

use joining_messages::write_grant;
use plc_base::{EapBuf, Eui, Grant, Octets, RandomOctets, TagText};

// Appends what every message begins with.
pub(crate) fn write_head<const N: usize>(
    code: u8,
    identifier: u8,
    count: u16,
    number: u8,
    rand_s: &RandomOctets,
    out: &mut Octets<N>,
)
    requires number { number ≤ 3 }
    requires room { length out.old + 22 ≤ N }
    ensures spelled { out.new ≡ out.old ++ head code identifier count number rand_s.now.0 }
    ensures longer { length out.new ≡ length out.old + 22 }
{
    out.push(code);
    out.push(identifier);
    out.push_be_u16(count);
    out.push(0x2F);
    out.push(64 * number);
    out.append(&rand_s.0);
}

// What MAC_P is computed over.
pub(crate) fn mac_p_input(
    id_p: &Eui,
    id_s: &Eui,
    rand_s: &RandomOctets,
    rand_p: &RandomOctets,
) -> TagText
    ensures { result ≡ mac_p_text id_p.now.0 id_s.now.0 rand_s.now.0 rand_p.now.0 }
{
    let mut text = TagText::new();
    text.append(&id_p.0);
    text.append(&id_s.0);
    text.append(&rand_s.0);
    text.append(&rand_p.0);
    text
}

// What MAC_S is computed over.
pub(crate) fn mac_s_input(id_s: &Eui, rand_p: &RandomOctets) -> TagText
    ensures { result ≡ mac_s_text id_s.now.0 rand_p.now.0 }
{
    let mut text = TagText::new();
    text.append(&id_s.0);
    text.append(&rand_p.0);
    text
}

// The header of the third message, whose channel has this plain text.
pub(crate) fn third_header(identifier: u8, rand_s: &RandomOctets, text: &[u8]) -> TagText
    requires { length text.now ≤ 64 }
    ensures spelled { result ≡ third_head identifier rand_s.now.0 (length text.now) }
    ensures length { length result ≡ 22 }
{
    let mut header = TagText::new();
    write_head(
        1,
        identifier,
        58 + text.len() as u16,
        2,
        rand_s,
        &mut header,
    );
    header
}

// The header of the fourth message.
pub(crate) fn fourth_header(identifier: u8, rand_s: &RandomOctets) -> TagText
    ensures spelled { result ≡ fourth_head identifier rand_s.now.0 }
    ensures length { length result ≡ 22 }
{
    let mut header = TagText::new();
    write_head(2, identifier, 43, 3, rand_s, &mut header);
    header
}

// The plain text of a third message.
pub(crate) fn granting_text(grant: &Grant) -> TagText
    ensures spelled { result ≡ granting_text grant.now }
    ensures fits { length result ≤ 47 }
{
    let mut list = EapBuf::new();
    write_grant(grant, &mut list);
    let mut text = TagText::new();
    text.push(0xA0);
    text.push(2);
    text.append(list.octets());
    text
}
