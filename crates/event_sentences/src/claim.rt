//! What can be said of an event, and its words, which stand here alone: with a `%` for each fact, the first of which is the node.
ghost use Rattle.std.specs.Prelude.{◌≡◌, IfOk, length, string_bytes};
ghost use Rattle.sentence_parts.specs.Woven.{holes};
ghost use Rattle.event_sentences.specs.Claims.{deed_text, facts_of, words_of};

use sentence_parts::{node, number, woven};
use std::alloc::{AllocError, Global};

const HANDS_UP: &str = "% hands up the datagram of send %";

const HANDS_UP_STRAY: &str = "% hands up the datagram of no send of this run";

/// What a node did. `specs/Truth.antt` says when each is true of an event of a run.
#[derive(Clone, Copy, Debug, PartialEq, Eq)]
pub enum Deed {
    /// It handed up the datagram of a send, by its number from 1.
    HandsUp { send: u32 },
    /// It handed up a datagram that no node of the run had sent.
    HandsUpStray,
}

/// The sentence that says what a node did.
pub fn deed_said(alloc: Global, at: u32, deed: Deed) -> Result<String, AllocError>
    ensures text { IfOk result (λ text. string_bytes text ≡ deed_text at deed) }
    // Each fact has its place in the words.
    ensures places { holes (words_of deed) ≡ length (facts_of at deed) }
{
    match deed {
        Deed::HandsUp { send } => woven(alloc, HANDS_UP, &[node(at), number(send as usize)]),
        Deed::HandsUpStray => woven(alloc, HANDS_UP_STRAY, &[node(at)]),
    }
}
