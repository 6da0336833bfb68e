//! Datagrams in pieces (RFC 4944, 5.3): the pieces of a datagram, and reassemblies that gather the pieces of datagrams in the blocks of a pool.
//!
//! - [`pieces`] says how many units carry a datagram, and [`piece_at`] gives its k-th piece: 368 octets, and the last one what is left.
//! - [`NextTag`] is the tag that names the pieces of the next datagram: `open`, `take` before a datagram is sent, and the tag after it is
//!   stored at slot 4 first.
//! - [`Reassembly`] gathers: `empty` takes its memory, `take` for each piece that comes, which answers when a datagram is whole ([`Taken`]),
//!   `expire` at a time in seconds, `clear`. The octets stand in chains of a pool (`block_pool`), which each call is lent.
//!
//! What its calls promise, by the names of their clauses:
//!
//! - The k-th piece is that of the definition (`value`, `kth`).
//! - What is held after a piece or after time is the definition's, `taken` and `unexpired` (`gathered`, `answer`, `datagram`).
//! - [`BufferFull`] comes exactly where a new reassembly would be the ninth, or its blocks with those in use would pass 80, and nothing has
//!   changed then (`full`, `err`).
//! - The pieces of a datagram, in any order and with repeats, make exactly it; no two placed pieces overlap; other chains of the pool stay
//!   ([`the_pieces_of_a_datagram_come_together`], [`placed_pieces_never_overlap`], [`other_chains_keep_reassemblies`]).
//! - A tag is stored before it is used, so it is new also after a loss of power (`tag`, `store`, `kept`).
//!
//! It holds 8 reassemblies, each for [`REASSEMBLY_TIME`]. Opening takes memory for the places of their pieces, 2,560 octets, and no other call takes any
//! but blocks of the pool; there is no `unsafe`. A piece that overlaps
//! another one begins its reassembly anew. Times are the caller's, in seconds. `specs/Loads.antt` says which units a datagram or a command
//! goes out as, and `specs/WaitingBodies.antt` what waits for a route; the crates above carry that out.
#![tactic(auto)]

mod buffers;
mod fragmentation;
mod laws;
mod next_tag;
mod piece_span;
mod reassembly;
mod times;

pub use fragmentation::{piece_at, pieces};
pub use laws::{
    a_whole_reassembly_is_of_its_pieces, an_overlap_begins_anew, loads_spell_octets,
    other_chains_keep_reassemblies, placed_pieces_never_overlap,
    the_pieces_of_a_datagram_come_together,
};
pub use next_tag::NextTag;
pub use piece_span::PieceSpan;
pub use reassembly::{BufferFull, Reassembly, Taken};
pub use times::{REASSEMBLY_TIME, WAITING_TIME};
