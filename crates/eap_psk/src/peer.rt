//! The joining node's end.
ghost use Rattle.std.specs.Prelude.{◌≡◌, [], Some, IfOk, OnOk, OnErr};
ghost use Rattle.std.specs.Result.{result_err};
ghost use Rattle.eap_psk.specs.Messages.{First};
ghost use Rattle.eap_psk.specs.Sessions.{agreed_by, fourth_packet, granted_by, identifier_of, peer_for, second_packet, third_packet};
ghost use Rattle.eap_psk.specs.Faults.{first_fault, third_fault};
ghost use Rattle.eap_psk.specs.Tags.{no_tags, first_tags, third_tags};

use crate::channel::{open_channel, write_channel};
use crate::fault::EapFault;
use crate::keys::PskKeys;
use crate::reading::{check_code, check_same, first_of, granting_of, third_of};
use crate::server::Agreed;
use crate::writing::{fourth_header, granting_text, mac_p_input, mac_s_input, write_head};
use aes_modes::cmac;
use plc_base::{EapBuf, Eui, Grant, PairTag, RandomOctets, TagList, TagText, rest_at};

/// A session at the peer, which awaits the third message: the joining node's end of one EAP-PSK exchange.
#[derive(Clone, Copy, Debug, PartialEq, Eq)]
pub struct Peer {
    /// ID_P: the node's own EUI-64.
    pub eui: Eui,
    /// ID_S: the EUI-64 that the server named itself by.
    pub id_s: Eui,
    /// RAND_S, which the server chose.
    pub rand_s: RandomOctets,
    /// RAND_P, which the peer chose.
    pub rand_p: RandomOctets,
}

impl Peer {
    /// Takes the first message, and writes the second, of 62 octets, which replaces what `out` held. The identifier is that of the
    /// first.
    ///
    /// `tags` gets MAC_P as made. After a fault, which is [`EapFault::Form`], `out` and `tags` are empty.
    pub fn answer_first(
        keys: &PskKeys,
        eui: Eui,
        rand_p: RandomOctets,
        packet: &[u8],
        out: &mut EapBuf,
        tags: &mut TagList,
    ) -> Result<Peer, EapFault>
        // A fault is the first one.
        ensures exact { first_fault packet.now ≡ result_err result }
        ensures peer { IfOk result (λ peer. peer ≡ peer_for eui rand_p packet.now) }
        // What is taken is a first message.
        ensures read { IfOk result (λ peer. First (identifier_of packet.now) peer.rand_s.0 peer.id_s.0 packet.now) }
        ensures written { IfOk result (λ peer. out.new ≡ second_packet keys.now (identifier_of packet.now) peer) }
        ensures tags { IfOk result (λ peer. tags.new ≡ first_tags peer) }
        ensures refused { OnErr result ((out.new ≡ []) × (tags.new ≡ no_tags)) }
    {
        out.clear();
        *tags = TagList::new();
        let first = first_of(packet)?;
        let rand_s = first.head.rand_s;
        let answer = mac_p_input(&eui, &first.id_s, &rand_s, &rand_p);
        write_head(2, first.head.identifier, 62, 1, &rand_s, out);
        out.append(&rand_p.0);
        out.append(&cmac(keys.authentication(), answer.octets()));
        out.append(&eui.0);
        tags.made.push(PairTag::MacP { eui, text: answer });
        Ok(Peer {
            eui,
            id_s: first.id_s,
            rand_s,
            rand_p,
        })
    }

    /// Takes the third message. Where it is right, writes the fourth, of 43 octets and with the same identifier, which replaces what
    /// `out` held, and answers the grant and the random values that both ends hold.
    ///
    /// `tags` gets MAC_S and the channel's tag as opened, and the answer's as made. After a fault `out` and `tags` are empty.
    pub fn take_third(
        &self,
        keys: &PskKeys,
        packet: &[u8],
        out: &mut EapBuf,
        tags: &mut TagList,
    ) -> Result<(Grant, Agreed), EapFault>
        // A fault is the first one.
        ensures exact { third_fault keys.now self.now packet.now ≡ result_err result }
        ensures grant { IfOk result (λ x. granted_by keys.now self.now packet.now ≡ Some x.0) }
        // What is taken is the third message of this session, with this grant.
        ensures read { IfOk result (λ x. packet.now ≡ third_packet keys.now (identifier_of packet.now) self.now x.0) }
        ensures agreed { IfOk result (λ x. x.1 ≡ agreed_by self.now) }
        ensures written { OnOk result (out.new ≡ fourth_packet keys.now (identifier_of packet.now) self.now) }
        ensures tags { IfOk result (λ x. tags.new ≡ third_tags self.now (identifier_of packet.now) x.0) }
        ensures refused { OnErr result ((out.new ≡ []) × (tags.new ≡ no_tags)) }
    {
        out.clear();
        *tags = TagList::new();
        let third = third_of(packet)?;
        check_same(&third.head.rand_s.0, &self.rand_s.0, EapFault::OtherSession)?;
        let claim = mac_s_input(&self.id_s, &self.rand_p);
        check_code(&third.mac_s, &cmac(keys.authentication(), claim.octets()))?;
        let tek = keys.transient(&self.rand_p);
        let text = open_channel(&tek, 0, &third.head.octets, &third.tag, rest_at(packet, 58))?;
        let grant = granting_of(text.octets())?;
        let header = fourth_header(third.head.identifier, &self.rand_s);
        out.append(header.octets());
        write_channel(&tek, 1, header.octets(), &[0x80], out);
        tags.opened.push(PairTag::MacS {
            eui: self.eui,
            text: claim,
        });
        tags.opened.push(PairTag::Channel {
            eui: self.eui,
            rand_p: self.rand_p,
            nonce: 0,
            header: TagText::from_octets(&third.head.octets),
            text: granting_text(&grant),
        });
        tags.made.push(PairTag::Channel {
            eui: self.eui,
            rand_p: self.rand_p,
            nonce: 1,
            header,
            text: TagText::from_octets(&[0x80]),
        });
        let agreed = Agreed {
            rand_s: self.rand_s,
            rand_p: self.rand_p,
        };
        Ok((grant, agreed))
    }
}
