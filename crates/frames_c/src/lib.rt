//! MAC frames for C: `libframes_c.a`, whose calls `tools/frames_c/frames.h` declares.
//!
//! - [`frames_seal`] seals a payload under a key: the frame of its head.
//! - [`frames_open`] opens a sealed frame under a key: its payload.
//! - [`frames_read`] reads the head of a frame of any kind, or says what is wrong with its octets, and where.
//!
//! Each call stands alone: it keeps nothing, takes no memory and may be called from any thread. It answers a number of [`Refusal`], or 0 where
//! it did what it is for. A refused call changes none of its buffers, and a call writes no octet of a buffer beyond the length that it answers.
//!
//! What its calls promise, by the names of their clauses:
//!
//! - A call that refuses answers the first reason in the order of its definition. It answers 0 exactly where none holds (`status`).
//! - What is sealed is the sealed frame of the definition (`sealed`), and what opens was sealed so (`opened`); the head is the one that the octets
//!   spell (`read`).
//! - Nothing else is written (`rest`, `refused`).
//!
//! C has to keep what its side of a call owes: each pointer goes with the length of what it points to, and no buffer that is written overlaps
//! another argument. Each call makes a key schedule. That a frame counter serves once under a key is the caller's to keep.
#![tactic(auto)]

mod copying;
mod head;
mod key;
mod opening;
mod reading;
mod refusal;
mod sealing;

pub use head::FramesHead;
pub use opening::frames_open;
pub use reading::frames_read;
pub use refusal::Refusal;
pub use sealing::frames_seal;
