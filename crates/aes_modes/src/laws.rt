//! Laws of the modes: what was sealed opens, two texts are not sealed alike, and under keys of octets all is octets.
//!
//! The functions without arguments do nothing: each states a law over the definitions as its contract.
ghost use Rattle.std.specs.Prelude.{◌≡◌, ◌<◌, ◌⊎◌, length, IsOk};
ghost use Rattle.aes_modes.specs.Eax.{eax_text, eax_tag};
ghost use Rattle.aes_modes.specs.Ccm.{ccm_tag};
ghost use Rattle.aes_modes.specs.Laws.{BlocksAreOctets, CcmLengths, CcmTagsAreOctets, CcmTextsAreOctets, CcmTextsComeBack, CcmTextsDiffer, CmacsAreOctets};
ghost use Rattle.aes_modes.specs.Laws.{EaxLengths, EaxTagsAreOctets, EaxTextsAreOctets, EaxTextsComeBack, EaxTextsDiffer};

use crate::ccm::{ccm_open, ccm_seal};
use crate::eax::{eax_open, eax_seal};
use crate::{Aes, BadTag};

/// Seals a text with CCM and opens it with the tag that this gave: it opens, and is what it was.
pub fn ccm_seal_and_open(
    aes: &Aes,
    nonce: &[u8; 13],
    header: &[u8],
    text: &mut [u8],
    tag: &mut [u8],
) -> Result<(), BadTag>
    requires header { length header.now < 65280 }
    requires text { length text.old < 65536 }
    requires tag { (length tag.old ≡ 4) ⊎ (length tag.old ≡ 8) }
    ensures opened { IsOk result }
    ensures same { text.new ≡ text.old }
    ensures tag { tag.new ≡ ccm_tag (length tag.old) aes.now nonce.now header.now text.old }
{
    ccm_seal(aes, nonce, header, text, tag);
    ccm_open(aes, nonce, header, text, tag)
}

/// Seals a text with EAX and opens it with the tag that this gave: it opens, and is what it was.
pub fn eax_seal_and_open(
    aes: &Aes,
    nonce: &[u8; 16],
    header: &[u8],
    text: &mut [u8],
    tag: &mut [u8; 16],
) -> Result<(), BadTag>
    ensures opened { IsOk result }
    ensures same { text.new ≡ text.old }
    ensures tag { tag.new ≡ eax_tag aes.now nonce.now header.now (eax_text aes.now nonce.now text.old) }
{
    *tag = eax_seal(aes, nonce, header, text);
    eax_open(aes, nonce, header, text, tag)
}

/// The key stream of CCM gives an encrypted text back.
pub fn ccm_texts_come_back()
    ensures { CcmTextsComeBack }
{}

/// Under one key and nonce of CCM, two different texts have different encrypted texts.
pub fn ccm_texts_differ()
    ensures { CcmTextsDiffer }
{}

/// The key stream of EAX gives an encrypted text back.
pub fn eax_texts_come_back()
    ensures { EaxTextsComeBack }
{}

/// Under one key and nonce of EAX, two different texts have different encrypted texts.
pub fn eax_texts_differ()
    ensures { EaxTextsDiffer }
{}

/// An encrypted text of CCM is as long as the text, and a tag has as many octets as were asked for.
pub fn ccm_lengths()
    ensures { CcmLengths }
{}

/// An encrypted text of EAX is as long as the text, and its tag has 16 octets.
pub fn eax_lengths()
    ensures { EaxLengths }
{}

/// A block that is encrypted under a key of octets is octets, whatever it was.
pub fn blocks_are_octets()
    ensures { BlocksAreOctets }
{}

/// A CMAC under a key of octets is octets, of whatever text.
pub fn cmacs_are_octets()
    ensures { CmacsAreOctets }
{}

/// Under a key of octets CCM makes octets: an encrypted text of a text of octets, and a tag of anything.
pub fn ccm_makes_octets()
    ensures text { CcmTextsAreOctets }
    ensures tag { CcmTagsAreOctets }
{}

/// Under a key of octets EAX makes octets: an encrypted text of a text of octets, and a tag of anything.
pub fn eax_makes_octets()
    ensures text { EaxTextsAreOctets }
    ensures tag { EaxTagsAreOctets }
{}
