//! The coordinator's end.
ghost use Rattle.std.specs.Prelude.{◌≡◌, ◌↔◌, [], Some, None, IsSome, IfOk, IfSome, OnOk, OnErr};
ghost use Rattle.std.specs.Result.{result_err};
ghost use Rattle.eap_psk.specs.Messages.{First};
ghost use Rattle.eap_psk.specs.Sessions.{agreed_by, fourth_packet, peer_of, rand_p_in, second_packet, server_after, third_packet};
ghost use Rattle.eap_psk.specs.Faults.{second_fault, fourth_fault};
ghost use Rattle.eap_psk.specs.Tags.{no_tags, second_tags, fourth_tags};

use crate::channel::{open_channel, write_channel};
use crate::fault::EapFault;
use crate::keys::PskKeys;
use crate::reading::{check_code, check_same, fourth_of, second_of};
use crate::writing::{
    fourth_header, granting_text, mac_p_input, mac_s_input, third_header, write_head,
};
use aes_modes::cmac;
use plc_base::{EapBuf, Eui, Grant, PairTag, PairTags, RandomOctets, TagList, TagText, rest_at};

/// The random values of a session that both ends have shown to share.
#[derive(Clone, Copy, Debug, PartialEq, Eq)]
pub struct Agreed {
    /// The server's.
    pub rand_s: RandomOctets,
    /// The peer's.
    pub rand_p: RandomOctets,
}

/// A session at the server: the coordinator's end of one EAP-PSK exchange.
#[derive(Clone, Copy, Debug, PartialEq, Eq)]
pub struct Server {
    /// ID_P: the EUI-64 of the joining node.
    pub eui: Eui,
    /// ID_S: the coordinator's own EUI-64.
    pub id_s: Eui,
    /// RAND_S, which the server chose.
    pub rand_s: RandomOctets,
    /// RAND_P, once the second message was taken.
    pub rand_p: Option<RandomOctets>,
}

impl Server {
    /// Begins a session with the node of this EUI-64, and writes the first message, of 30 octets, which replaces what `out` held.
    pub fn first(eui: Eui, id_s: Eui, rand_s: RandomOctets, out: &mut EapBuf) -> Server
        ensures server { result ≡ record { eui = eui; id_s = id_s; rand_s = rand_s; rand_p = None } }
        ensures message { First 1 rand_s.0 id_s.0 out.new }
    {
        out.clear();
        write_head(1, 1, 30, 0, &rand_s, out);
        out.append(&id_s.0);
        Server {
            eui,
            id_s,
            rand_s,
            rand_p: None,
        }
    }

    /// The number of the message that the server awaits: 2, or 4 once it took the second.
    pub fn awaits(&self) -> u8
        ensures second { (result ≡ 2) ↔ (self.now.rand_p ≡ None) }
        ensures fourth { (result ≡ 4) ↔ IsSome self.now.rand_p }
    {
        if self.rand_p.is_some() { 4 } else { 2 }
    }

    /// Takes the second message. Where it is right, writes the third message, which carries the grant and replaces what `out` held,
    /// and answers the server that awaits the fourth.
    ///
    /// `tags` gets MAC_P as opened, and MAC_S and the channel's tag as made. After a fault `out` and `tags` are empty. A fault
    /// is [`EapFault::Form`], [`EapFault::OtherSession`] or [`EapFault::BadMac`].
    pub fn take_second(
        &self,
        keys: &PskKeys,
        packet: &[u8],
        grant: &Grant,
        out: &mut EapBuf,
        tags: &mut TagList,
    ) -> Result<Server, EapFault>
        requires awaits { self.now.rand_p ≡ None }
        // A fault is the first one.
        ensures exact { second_fault keys.now self.now packet.now ≡ result_err result }
        ensures next { IfOk result (λ next. next ≡ server_after self.now packet.now) }
        // What is taken is the second message of this session.
        ensures read { OnOk result (packet.now ≡ second_packet keys.now 1 (peer_of self.now (rand_p_in packet.now))) }
        ensures written { OnOk result
            (out.new ≡ third_packet keys.now 2 (peer_of self.now (rand_p_in packet.now)) grant.now) }
        ensures tags { OnOk result (tags.new ≡ second_tags (peer_of self.now (rand_p_in packet.now)) grant.now) }
        ensures refused { OnErr result ((out.new ≡ []) × (tags.new ≡ no_tags)) }
    {
        out.clear();
        *tags = TagList::new();
        let second = second_of(packet)?;
        check_same(&second.rand_s.0, &self.rand_s.0, EapFault::OtherSession)?;
        check_same(&second.id_p.0, &self.eui.0, EapFault::OtherSession)?;
        let answer = mac_p_input(&self.eui, &self.id_s, &self.rand_s, &second.rand_p);
        check_code(&second.mac_p, &cmac(keys.authentication(), answer.octets()))?;
        tags.opened.push(PairTag::MacP {
            eui: self.eui,
            text: answer,
        });
        self.write_third(keys, second.rand_p, grant, out, &mut tags.made);
        Ok(Server {
            rand_p: Some(second.rand_p),
            ..*self
        })
    }

    // Writes the third message into `out`, and its two tags into `made`.
    fn write_third(
        &self,
        keys: &PskKeys,
        rand_p: RandomOctets,
        grant: &Grant,
        out: &mut EapBuf,
        made: &mut PairTags,
    )
        requires out { out.old ≡ [] }
        requires made { made.old ≡ [] }
        ensures written { out.new ≡ third_packet keys.now 2 (peer_of self.now rand_p) grant.now }
        ensures made { made.new ≡ (second_tags (peer_of self.now rand_p) grant.now).made }
    {
        let claim = mac_s_input(&self.id_s, &rand_p);
        let text = granting_text(grant);
        let header = third_header(2, &self.rand_s, text.octets());
        out.append(header.octets());
        out.append(&cmac(keys.authentication(), claim.octets()));
        write_channel(
            &keys.transient(&rand_p),
            0,
            header.octets(),
            text.octets(),
            out,
        );
        made.push(PairTag::MacS {
            eui: self.eui,
            text: claim,
        });
        made.push(PairTag::Channel {
            eui: self.eui,
            rand_p,
            nonce: 0,
            header,
            text,
        });
    }

    /// Takes the fourth message. Where it is right, both ends hold the same random values, which are answered.
    ///
    /// `tags` gets the channel's tag as opened. After a fault `tags` is empty. A fault is [`EapFault::Form`],
    /// [`EapFault::OtherSession`], [`EapFault::BadChannel`] or [`EapFault::NoSuccess`].
    pub fn take_fourth(
        &self,
        keys: &PskKeys,
        packet: &[u8],
        tags: &mut TagList,
    ) -> Result<Agreed, EapFault>
        requires awaits { IsSome self.now.rand_p }
        // A fault is the first one.
        ensures exact { IfSome self.now.rand_p
            (λ rand_p. fourth_fault keys.now self.now rand_p.0 packet.now ≡ result_err result) }
        ensures agreed { IfOk result
            (λ agreed. (agreed.rand_s ≡ self.now.rand_s) × (Some agreed.rand_p ≡ self.now.rand_p)) }
        // What is taken is the fourth message of this session.
        ensures read { IfOk result (λ agreed. packet.now ≡ fourth_packet keys.now 2 (peer_of self.now agreed.rand_p)) }
        ensures tags { IfOk result (λ agreed. tags.new ≡ fourth_tags (peer_of self.now agreed.rand_p)) }
        ensures refused { OnErr result (tags.new ≡ no_tags) }
    {
        self.take_fourth_with(self.rand_p.unwrap(), keys, packet, tags)
    }

    // The same with RAND_P.
    #[tactic(auto, unfolding(plc_base::specs::Fields::octet))]
    fn take_fourth_with(
        &self,
        rand_p: RandomOctets,
        keys: &PskKeys,
        packet: &[u8],
        tags: &mut TagList,
    ) -> Result<Agreed, EapFault>
        ensures exact { fourth_fault keys.now self.now rand_p.0 packet.now ≡ result_err result }
        ensures agreed { IfOk result (λ agreed. agreed ≡ agreed_by (peer_of self.now rand_p)) }
        ensures read { OnOk result (packet.now ≡ fourth_packet keys.now 2 (peer_of self.now rand_p)) }
        ensures tags { OnOk result (tags.new ≡ fourth_tags (peer_of self.now rand_p)) }
        ensures refused { OnErr result (tags.new ≡ no_tags) }
    {
        *tags = TagList::new();
        let fourth = fourth_of(packet)?;
        check_same(
            &fourth.head.rand_s.0,
            &self.rand_s.0,
            EapFault::OtherSession,
        )?;
        let tek = keys.transient(&rand_p);
        let text = open_channel(
            &tek,
            1,
            &fourth.head.octets,
            &fourth.tag,
            rest_at(packet, 42),
        )?;
        if text.octets()[0] != 0x80 {
            return Err(EapFault::NoSuccess);
        }
        tags.opened.push(PairTag::Channel {
            eui: self.eui,
            rand_p,
            nonce: 1,
            header: TagText::from_octets(&fourth.head.octets),
            text: TagText::from_octets(&[0x80]),
        });
        Ok(Agreed {
            rand_s: self.rand_s,
            rand_p,
        })
    }
}
