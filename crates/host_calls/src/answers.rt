//! Answers, as items.
ghost use Rattle.std.specs.Prelude.{◌≡◌, map, IfOk};
ghost use Rattle.plc_base.specs.Streams.{HasWritten};
ghost use Rattle.host_calls.specs.Outbox.{write_of};
ghost use Rattle.host_calls.specs.Answers.{none_given, put_text, frame_text, puts_text, frames_text, joined_text, up_text, status_text, answer_text};

use crate::status::Status;
use crate::{ItemOctets, ListedPut, write_item};
use plc_base::{Failed, Out, OutFrame, Short, Sink};
use std::alloc::{AllocError, Global};

const STATUS: u8 = 0x80;

const PUT: u8 = 0x81;

const FRAME: u8 = 0x82;

const UP: u8 = 0x83;

const JOINED: u8 = 0x84;

/// What a call gave out, beside its puts.
#[derive(Drop)]
pub struct Given {
    /// The frames that are to be sent.
    pub out: Out,
    /// The short address of a meter that has joined by the call. None where it has not.
    pub joined: Option<Short>,
    /// A datagram that is handed up: its sender in two octets, its note in four, and its octets. Nothing where there is none.
    pub up: ItemOctets,
}

impl Given {
    /// Nothing, and memory for the frames of a call. It fails only where there is none.
    pub fn new(alloc: Global) -> Result<Given, AllocError>
        ensures { IfOk result (λ given. given ≡ none_given) }
    {
        Ok(Given {
            out: Out::new(alloc)?,
            joined: None,
            up: ItemOctets::new(),
        })
    }

    /// Drops what was given out.
    pub fn clear(&mut self)
        ensures { self.new ≡ none_given }
    {
        self.out.clear();
        self.joined = None;
        self.up.clear();
    }
}

// Writes a put.
fn write_put<K: Sink>(sink: &mut K, put: &ListedPut) -> Result<(), Failed>
    ensures { HasWritten (K.state sink.old) (K.state sink.new) result (put_text (write_of put.now)) }
{
    let mut text = ItemOctets::new();
    text.push_be_u32(put.slot);
    text.append(put.octets.octets());
    write_item(sink, PUT, text.octets())
}

// Writes a frame.
fn write_frame<K: Sink>(sink: &mut K, frame: &OutFrame) -> Result<(), Failed>
    ensures { HasWritten (K.state sink.old) (K.state sink.new) result (frame_text frame.now) }
{
    let mut text = ItemOctets::new();
    text.push_be_u32(frame.note);
    text.append(frame.octets.octets());
    write_item(sink, FRAME, text.octets())
}

// Writes puts, in order.
fn write_puts<K: Sink>(sink: &mut K, puts: &[ListedPut]) -> Result<(), Failed>
    ensures { HasWritten (K.state sink.old) (K.state sink.new) result (puts_text (map write_of puts.now)) }
{
    for put in puts {
        write_put(sink, put)?;
    }
    Ok(())
}

// Writes frames, in order.
fn write_frames<K: Sink>(sink: &mut K, frames: &[OutFrame]) -> Result<(), Failed>
    ensures { HasWritten (K.state sink.old) (K.state sink.new) result (frames_text frames.now) }
{
    for frame in frames {
        write_frame(sink, frame)?;
    }
    Ok(())
}

// Writes that the meter has joined, if it has.
fn write_joined<K: Sink>(sink: &mut K, joined: Option<Short>) -> Result<(), Failed>
    ensures { HasWritten (K.state sink.old) (K.state sink.new) result (joined_text joined) }
{
    let Some(address) = joined else {
        return Ok(());
    };
    let mut text = ItemOctets::new();
    text.push_be_u16(address.number());
    write_item(sink, JOINED, text.octets())
}

// Writes what is handed up, if there is something.
fn write_up<K: Sink>(sink: &mut K, up: &ItemOctets) -> Result<(), Failed>
    ensures { HasWritten (K.state sink.old) (K.state sink.new) result (up_text up.now) }
{
    if up.is_empty() {
        return Ok(());
    }
    write_item(sink, UP, up.octets())
}

/// Writes how a call ended, which is the last item of each answer. Where the sink fails, a prefix of it was written.
pub fn write_status<K: Sink>(sink: &mut K, status: Status) -> Result<(), Failed>
    ensures { HasWritten (K.state sink.old) (K.state sink.new) result (status_text status) }
{
    let mut text = ItemOctets::new();
    text.push(status.number());
    if let Some(reason) = status.reason() {
        text.push(reason);
    }
    write_item(sink, STATUS, text.octets())
}

/// Writes an answer: the puts, in order, then the frames, in order, then that the meter has joined, then what is handed up,
/// and then how the call ended. Where the sink fails, a
/// prefix of it was written.
pub fn write_answer<K: Sink>(
    sink: &mut K,
    puts: &[ListedPut],
    given: &Given,
    status: Status,
) -> Result<(), Failed>
    ensures { HasWritten (K.state sink.old) (K.state sink.new) result (answer_text (map write_of puts.now) given.now status) }
{
    write_puts(sink, puts)?;
    write_frames(sink, given.out.frames.frames())?;
    write_joined(sink, given.joined)?;
    write_up(sink, &given.up)?;
    write_status(sink, status)
}
