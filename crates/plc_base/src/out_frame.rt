//! The frames that a node sends.
ghost use Rattle.std.specs.Prelude.{◌≡◌, ◌<◌, ◌≤◌, ◌==◌, ◌++◌, ◌∷◌, [], length, None, IsSome, IfSome, slice_index_or, slice_set, IfOk};
ghost use Rattle.plc_base.specs.declared.limits.TheConstants.{MOST_FRAMES};

use crate::{FrameBuf, Key, MOST_FRAMES, TagList};
use std::alloc::{AllocError, Global};
use std::fmt;
use std::marker::Model;

/// A frame to be sent, with what its sender knows of it.
#[derive(Debug, Drop)]
pub struct OutFrame {
    /// The octets of the frame.
    pub octets: FrameBuf,
    /// The caller's number of the datagram that the frame carries, 0 for commands. It is never sent.
    pub note: u32,
    /// The group key that sealed the frame, None for a plain one.
    pub key: Option<Key>,
}

impl Default for OutFrame {
    /// A blank, for an unused place of a list.
    fn default() -> OutFrame
        ensures { result ≡ record { octets = []; note = 0; key = None } }
    {
        OutFrame {
            octets: FrameBuf::new(),
            note: 0,
            key: None,
        }
    }
}

impl OutFrame {
    // Makes a blank of it.
    fn blank(&mut self)
        ensures { self.new ≡ record { octets = []; note = 0; key = None } }
    {
        self.octets.clear();
        self.note = 0;
        self.key = None;
    }
}

/// The frames of one step, at most 24, whose memory is taken by `new`. A contract sees the list of them.
#[derive(Drop)]
pub struct OutFrames {
    // All 24, whether in use or not, so that a frame is neither made nor moved to be appended.
    places: Vec<OutFrame>,
    used: usize,
}

impl Model for OutFrames {
    ghost use Rattle.std.specs.Prelude.{◌≡◌, ◌≤◌, List, length, take};
    ghost use Rattle.plc_base.specs.declared.limits.TheConstants.{MOST_FRAMES};
    ghost use Rattle.plc_base.specs.declared.out_frame.OutFrame.{OutFrame};

    ghost Value = { List OutFrame };

    ghost view = { λ f. take f.used f.places.items };

    ghost invariant = { λ f. (f.used ≤ MOST_FRAMES) × (length f.places.items ≡ MOST_FRAMES) };
}

// This many blanks as a step has frames.
fn blanks(alloc: Global) -> Result<Vec<OutFrame>, AllocError>
    ensures { IfOk result (λ frames. length frames.items ≡ MOST_FRAMES) }
{
    let mut frames = Vec::with_capacity(alloc, MOST_FRAMES)?;
    for _ in 0..MOST_FRAMES {
        frames.push(OutFrame::default())?;
    }
    Ok(frames)
}

impl OutFrames {
    ghost use Rattle.std.specs.Borrow.{LendsIf, sem};
    ghost use Rattle.plc_base.specs.contracts.out_frame.OutFrames.{the_row};
    ghost use Rattle.plc_base.specs.contracts.out_frame.OutFrame.{the_row as frame_row};

    /// No frame, and memory for 24. It fails only where there is none.
    pub fn new(alloc: Global) -> Result<OutFrames, AllocError>
        ensures { IfOk result (λ frames. frames ≡ []) }
    {
        let places = blanks(alloc)?;
        Ok(OutFrames { places, used: 0 })
    }

    /// The frames, in the order in which they were pushed.
    pub fn frames(&self) -> &[OutFrame]
        ensures { result.now ≡ self.now }
    {
        &self.places.as_slice()[..self.used]
    }

    /// How many frames there are.
    pub fn len(&self) -> usize
        ensures value { result ≡ length self.now }
        ensures most { result ≤ MOST_FRAMES }
    {
        self.used
    }

    /// Whether there is no frame.
    pub fn is_empty(&self) -> bool
        ensures { result ≡ (length self.now == 0) }
    {
        self.used == 0
    }

    /// Appends a frame.
    pub fn push(&mut self, frame: OutFrame)
        requires { length self.old < MOST_FRAMES }
        ensures { self.new ≡ self.old ++ frame ∷ [] }
    {
        self.places[self.used] = frame;
        self.used += 1;
    }

    // Takes the next place, and makes a blank of what stands there.
    fn take_place(&mut self)
        requires { length self.old < MOST_FRAMES }
        ensures { self.new ≡ self.old ++ record { octets = []; note = 0; key = None } ∷ [] }
    {
        self.places[self.used].blank();
        self.used += 1;
    }

    // Lends a place.
    fn place_mut(&mut self, place: usize) -> Option<&mut OutFrame>
        requires { place < length self.old }
        ensures* lends { sem 𝓛 (LendsIf the_row frame_row self.entry result
            (slice_set self.entry.now place) self.entry.now) }
        ensures variant { IsSome result }
        ensures value { IfSome result (λ frame. frame.now ≡ slice_index_or self.old place frame.now) }
    {
        self.places.get_mut(place)
    }

    /// Appends a blank frame and lends it, so that a frame is written where it stays. It is never None.
    pub fn push_blank(&mut self) -> Option<&mut OutFrame>
        requires { length self.old < MOST_FRAMES }
        ensures* lends { sem 𝓛 (LendsIf the_row frame_row self.entry result
            (λ frame. self.entry.now ++ frame ∷ [])
            (self.entry.now ++ record { octets = []; note = 0; key = None } ∷ [])) }
        ensures variant { IsSome result }
        ensures value { IfSome result (λ frame. frame.now ≡ record { octets = []; note = 0; key = None }) }
    {
        let place = self.len();
        self.take_place();
        self.place_mut(place)
    }

    /// Drops all frames.
    pub fn clear(&mut self)
        ensures { self.new ≡ [] }
    {
        self.used = 0;
    }
}

impl fmt::Debug for OutFrames {
    /// Shows the frames of the step alone, and not what stands in the places that it does not use.
    fn fmt<W: fmt::Write>(&self, f: &mut fmt::Formatter<W>) -> fmt::Result {
        f.debug_list().entries(self.frames()).finish()
    }
}

/// What one step gives out: frames, and the tags that it made and checked.
///
/// `new` takes memory for 24 frames, 10,368 octets, and no other call takes any, so make one and reuse it.
#[derive(Debug, Drop)]
pub struct Out {
    /// The frames, in the order in which they are sent.
    pub frames: OutFrames,
    /// The tags.
    pub tags: TagList,
}

impl Out {
    /// Nothing, and memory for the frames. It fails only where there is none.
    pub fn new(alloc: Global) -> Result<Out, AllocError>
        ensures { IfOk result (λ out. out ≡ record { frames = []; tags = record { made = []; opened = [] } }) }
    {
        let frames = OutFrames::new(alloc)?;
        Ok(Out {
            frames,
            tags: TagList::new(),
        })
    }

    /// Drops all frames and tags.
    pub fn clear(&mut self)
        ensures { self.new ≡ record { frames = []; tags = record { made = []; opened = [] } } }
    {
        self.frames.clear();
        self.tags.clear();
    }
}
