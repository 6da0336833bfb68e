//! Frames in hexadecimal, one a line, and what each is: a beacon request, a beacon, or a MAC frame.
ghost use Rattle.std.specs.Prelude.{◌≡◌, length, IfOk, string_bytes, ℕ};
ghost use Rattle.line_replay.specs.Shown.{frame_line, kind_word, payload_word, plain_text, head_text, fault_text, mac_frame_text, discovery_text};
ghost use Rattle.line_replay.specs.Shown.{frame_text, shown_text, frames_text};
ghost use Rattle.line_replay.specs.Shown.{show_turn, show_stops};

use crate::report::refuse;
use line_script::{LINE_OCTETS, Reason, hex_octets, short_word};
use mac_frames::{FrameFault, FrameFaultKind, MacHead, read_frame};
use pan_discovery::{Discovery, read_discovery};
use plc_base::{Eui, OctetRef, Sink};
use script_lines::{LineKind, LineMachine, StopReason, write_text};
use std::alloc::{AllocError, Global};
use std::marker::Model;

/// What a line holds.
#[derive(Drop)]
pub enum FrameLine<'a> {
    /// Nothing: it is empty, or a comment.
    Quiet,
    /// It has no reading.
    NoForm,
    /// Octets that should be a frame.
    Reads(OctetRef<'a>),
}

#[tactic(auto, unfolding(crate::specs::Shown::frame_line))]
fn frame_line<'a>(octets: &[u8], buffers: &'a mut [u8]) -> FrameLine<'a>
    requires { length buffers.old ≡ LINE_OCTETS }
    ensures { result ≡ frame_line octets.now }
{
    match octets.first() {
        None => FrameLine::Quiet,
        Some(b'#') => FrameLine::Quiet,
        Some(_) => match hex_octets(octets, buffers) {
            Some(octets) => FrameLine::Reads(octets),
            None => FrameLine::NoForm,
        },
    }
}

fn kind_word(kind: FrameFaultKind) -> &'static str
    ensures { result.now ≡ kind_word kind }
{
    match kind {
        FrameFaultKind::Short => "Short",
        FrameFaultKind::Kind => "Kind",
        FrameFaultKind::Mode => "Mode",
        FrameFaultKind::Level => "Level",
        FrameFaultKind::Long => "Long",
        FrameFaultKind::Address => "Address",
    }
}

#[tactic(auto, unfolding(crate::specs::Shown::fault_text))]
fn fault_text(alloc: Global, fault: FrameFault) -> Result<String, AllocError>
    ensures { IfOk result (λ text. string_bytes text ≡ fault_text fault) }
{
    let kind = kind_word(fault.kind);
    let place = fault.place;
    format!(in alloc; "fault {kind} {place}\n")
}

/// A payload, or - where it is empty.
fn payload_word(alloc: Global, payload: &[u8]) -> Result<String, AllocError>
    ensures { IfOk result (λ text. string_bytes text ≡ payload_word payload.now) }
{
    if payload.is_empty() {
        return String::from_str(alloc, "-");
    }
    hex::encode(alloc, payload)
}

fn plain_text(alloc: Global, to: &str, from: &str, payload: &[u8]) -> Result<String, AllocError>
    ensures { IfOk result (λ text. string_bytes text ≡ plain_text to.now from.now payload.now) }
{
    let payload = payload_word(alloc, payload)?;
    format!(in alloc; "plain to {to} from {from} payload {payload}\n")
}

#[tactic(auto, unfolding(crate::specs::Shown::head_text))]
fn head_text(alloc: Global, head: &MacHead, body: &[u8]) -> Result<String, AllocError>
    ensures { IfOk result (λ text. string_bytes text ≡ head_text head.now body.now) }
{
    match head {
        MacHead::Sealed {
            to,
            from,
            counter,
            index,
            ..
        } => {
            let to = short_word(alloc, to.number())?;
            let from = short_word(alloc, from.number())?;
            let index = index.number();
            let length = body.len();
            format!(in alloc;
                "sealed to {to} from {from} counter {counter} index {index} body {length}\n"
            )
        }
        MacHead::Up { to, from, .. } => {
            let to = short_word(alloc, to.number())?;
            let from = hex::encode(alloc, from.0.as_slice())?;
            plain_text(alloc, to.as_str(), from.as_str(), body)
        }
        MacHead::Down { to, from, .. } => {
            let to = hex::encode(alloc, to.0.as_slice())?;
            let from = short_word(alloc, from.number())?;
            plain_text(alloc, to.as_str(), from.as_str(), body)
        }
    }
}

/// What octets are as a MAC frame, or their first fault.
#[tactic(auto, unfolding(crate::specs::Shown::mac_frame_text))]
fn mac_frame_text(alloc: Global, octets: &[u8]) -> Result<String, AllocError>
    ensures { IfOk result (λ text. string_bytes text ≡ mac_frame_text octets.now) }
{
    match read_frame(octets) {
        Ok(raw) => head_text(alloc, &raw.head, raw.body),
        Err(fault) => fault_text(alloc, fault),
    }
}

// A beacon request, or a beacon with its sender, its network and its cost.
#[tactic(auto, unfolding(crate::specs::Shown::discovery_text))]
fn discovery_text(alloc: Global, message: Discovery) -> Result<String, AllocError>
    ensures { IfOk result (λ text. string_bytes text ≡ discovery_text message) }
{
    match message {
        Discovery::Request { .. } => String::from_str(alloc, "beacon request\n"),
        Discovery::Beacon {
            pan,
            from,
            cost,
            ..
        } => {
            let from = short_word(alloc, from.number())?;
            let pan = short_word(alloc, pan)?;
            format!(in alloc; "beacon from {from} pan {pan} cost {cost}\n")
        }
    }
}

/// What octets are: a beacon request or a beacon (IEEE 802.15.4-2006, 7.3.7 and 7.2.2.1), else a MAC frame or its first
/// fault.
#[tactic(auto, unfolding(crate::specs::Shown::frame_text))]
fn frame_text(alloc: Global, octets: &[u8]) -> Result<String, AllocError>
    ensures { IfOk result (λ text. string_bytes text ≡ frame_text octets.now) }
{
    match read_discovery(octets) {
        Some(message) => discovery_text(alloc, message),
        None => mac_frame_text(alloc, octets),
    }
}

/// The line of a frame that stands in a line of this number.
#[tactic(auto, unfolding(crate::specs::Shown::shown_text))]
fn shown_text(alloc: Global, number: u32, octets: &[u8]) -> Result<String, AllocError>
    ensures { IfOk result (λ text. string_bytes text ≡ shown_text number octets.now) }
{
    let text = frame_text(alloc, octets)?;
    format!(in alloc; "{number} {text}")
}

#[tactic(auto, unfolding(crate::specs::Shown::frames_text))]
fn frames_text(alloc: Global, frames: u64) -> Result<String, AllocError>
    ensures { IfOk result (λ text. string_bytes text ≡ frames_text frames) }
{
    format!(in alloc; "end {frames}\n")
}

/// Shows frames line by line. A contract sees the number of frames so far.
#[derive(Drop)]
pub struct Show {
    alloc: Global,
    buffers: [u8; LINE_OCTETS],
    frames: u64,
}

impl Model for Show {
    ghost use Rattle.std.specs.Prelude.{ℕ};

    ghost Value = { ℕ };

    ghost view = { λ s. s.frames };
}

impl Show {
    /// No frame yet.
    pub fn new(alloc: Global) -> Show
        ensures { result ≡ 0 }
    {
        Show {
            alloc,
            buffers: [0; LINE_OCTETS],
            frames: 0,
        }
    }
}

impl LineMachine for Show {
    ghost turn = { show_turn };

    ghost end_text = { frames_text };

    ghost stops = { show_stops };

    #[tactic(auto, unfolding(crate::specs::Shown::show_turn), using(script_lines::proofs::Turned::stopped, script_lines::proofs::Turned::taken))]
    fn take<K: Sink>(
        &mut self,
        number: u32,
        kind: LineKind,
        line: &[u8],
        sink: &mut K,
    ) -> Result<(), StopReason> {
        match kind {
            LineKind::TooMuch => refuse(self.alloc, number, Reason::Input, sink),
            LineKind::Long => refuse(self.alloc, number, Reason::Long, sink),
            LineKind::Text => match frame_line(line, &mut self.buffers) {
                FrameLine::Quiet => Ok(()),
                FrameLine::NoForm => refuse(self.alloc, number, Reason::Form, sink),
                FrameLine::Reads(octets) => {
                    // No input has this many lines.
                    let Some(frames) = self.frames.checked_add(1) else {
                        return Err(StopReason::Memory);
                    };
                    self.frames = frames;
                    write_text(sink, shown_text(self.alloc, number, octets.octets()))
                }
            },
        }
    }

    fn finish<K: Sink>(&self, sink: &mut K) -> Result<(), StopReason> {
        write_text(sink, frames_text(self.alloc, self.frames))
    }
}
