//! AES-128 and the modes that the network uses: CMAC, EAX and CCM*.
//!
//! - [`Aes`] is a key with its schedule: `new` makes it for a key, `renew` where the key is another one, `encrypt_block` is the cipher of FIPS 197,
//!   and `encrypt_two` that of two blocks. It looks octets up by byte shuffles.
//! - [`SlicedAes`] is the same with bitwise operations on words alone, two blocks at once. The modes run over `Aes`; the crates in plain Rust name
//!   `SlicedAes` so where the processor has no byte shuffle.
//! - [`cmac`] gives the tag of a text (RFC 4493). [`eax_seal`] and [`eax_open`] serve the protected channel of EAP-PSK.
//! - [`ccm_seal`] and [`ccm_open`] serve frames: a nonce of 13 octets, a header that is authenticated alone, a tag of 4 or 8 octets.
//!   [`ccm_mask`] decrypts without a look at the tag, for whoever knows that a text was sealed so.
//! - [`is_same`] compares two blocks whole, for a tag or a code that somebody may be guessing.
//!
//! What its calls promise, by the names of their clauses:
//!
//! - Each call equals the definition of its standard, in `specs/`, over whole lists of octets (`text`, `tag`).
//! - What opens is exactly what has the tag (`tag`, `opened`), and [`BadTag`] leaves the text as it was given (`unchanged`).
//! - What a key seals it opens again, and it is what it was (`laws::ccm_seal_and_open`, `laws::eax_seal_and_open`).
//!
//! Texts are changed in place, nothing is allocated, and there is no `unsafe`. A header of CCM* has fewer than 65,280 octets and a text fewer
//! than 65,536. No table in memory is read at a place that depends on an octet of a key, a text or a tag, and tags are compared whole; what the
//! compiler makes of that is measured (`.ci/secrets`), and not proved. Nothing says that a tag can't be guessed, and a nonce that comes again
//! is the caller's fault.
#![tactic(auto)]

mod bad_tag;
mod blocks;
mod ccm;
mod cipher;
mod compare;
mod eax;
pub mod laws;
mod look_ups;
mod mac;
mod pairs;
mod sliced;

pub use bad_tag::BadTag;
pub use ccm::{ccm_mask, ccm_open, ccm_seal};
pub use cipher::Aes;
pub use compare::is_same;
pub use eax::{eax_open, eax_seal};
pub use mac::cmac;
pub use sliced::SlicedAes;
