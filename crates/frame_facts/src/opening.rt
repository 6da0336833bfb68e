//! The payloads of frames, opened.
ghost use Rattle.std.specs.Prelude.{◌≡◌, ◌++◌, List, ℕ, Some};
ghost use Rattle.mac_frames.specs.Grammar.{Frame, IsSealed};
ghost use Rattle.frame_facts.specs.Payloads as payloads;

use aes_modes::Aes;
use mac_frames::{MacHead, RawFrame, decrypt_payload, open_frame, read_frame};
use plc_base::{FrameBuf, Key, LONGEST_FRAME};

// The payload of a sealed frame that was read, where there is a key that opens it.
fn open_sealed(raw: &RawFrame<'_>, key: &Option<Key>, out: &mut FrameBuf) -> bool
    requires sealed { IsSealed raw.now.head }
    requires frame { Frame raw.now.head raw.now.body.now (raw.now.header.now ++ raw.now.body.now) }
    ensures { payloads.opened_with key.now raw.now.head raw.now.header.now raw.now.body.now ≡ payloads.held result out.new }
{
    let Some(key) = key else {
        return false;
    };
    match open_frame(&Aes::new(key), raw, out) {
        Ok(()) => true,
        Err(_) => false,
    }
}

// The body of a plain frame, where it fits into a frame.
fn copy_body(body: &[u8], out: &mut FrameBuf) -> bool
    ensures { payloads.bare body.now ≡ payloads.held result out.new }
{
    if body.len() > LONGEST_FRAME {
        return false;
    }
    out.clear();
    out.append(body);
    true
}

// The payload of a frame that was read.
fn open_raw(raw: &RawFrame<'_>, key: &Option<Key>, out: &mut FrameBuf) -> bool
    requires frame { Frame raw.now.head raw.now.body.now (raw.now.header.now ++ raw.now.body.now) }
    ensures { payloads.payload_by raw.now.head key.now raw.now.header.now raw.now.body.now ≡ payloads.held result out.new }
{
    match &raw.head {
        MacHead::Sealed { .. } => open_sealed(raw, key, out),
        MacHead::Up { .. } => copy_body(raw.body, out),
        MacHead::Down { .. } => copy_body(raw.body, out),
    }
}

/// Puts the payload of a frame into `out`: that of a plain one, or of a sealed one that this key opens. Answers whether there is one.
///
/// What `out` holds where there is none is not said.
pub fn open_octets(octets: &[u8], key: &Option<Key>, out: &mut FrameBuf) -> bool
    ensures { payloads.payload_of octets.now key.now ≡ payloads.held result out.new }
{
    match read_frame(octets) {
        Ok(raw) => open_raw(&raw, key, out),
        Err(_) => false,
    }
}

// The payload of a sealed frame that was read, where its key is known. The schedule of the key before serves where the key is the same.
fn decrypt_sealed(raw: &RawFrame<'_>, key: &Option<Key>, aes: &mut Aes, out: &mut FrameBuf) -> bool
    requires sealed { IsSealed raw.now.head }
    requires frame { Frame raw.now.head raw.now.body.now (raw.now.header.now ++ raw.now.body.now) }
    ensures { payloads.decrypted_with key.now raw.now.head raw.now.body.now ≡ payloads.held result out.new }
{
    let Some(key) = key else {
        return false;
    };
    aes.renew(key);
    decrypt_payload(aes, raw, out);
    true
}

// The payload of a frame that was read and whose key is known.
fn decrypt_raw(raw: &RawFrame<'_>, key: &Option<Key>, aes: &mut Aes, out: &mut FrameBuf) -> bool
    requires frame { Frame raw.now.head raw.now.body.now (raw.now.header.now ++ raw.now.body.now) }
    ensures { payloads.carried_by raw.now.head key.now raw.now.body.now ≡ payloads.held result out.new }
{
    match &raw.head {
        MacHead::Sealed { .. } => decrypt_sealed(raw, key, aes, out),
        MacHead::Up { .. } => copy_body(raw.body, out),
        MacHead::Down { .. } => copy_body(raw.body, out),
    }
}

/// Puts the payload of a frame that is known to be sealed under this key, or plain where there is none, into `out`. Answers whether there is one.
///
/// It looks at no tag, which is half the work of [`open_octets`]; where that opens the frame, the payload is the same (`opened`). `aes` keeps the
/// schedule of the key for the next frame. What `out` holds where there is no payload is not said.
pub fn decrypt_octets(octets: &[u8], key: &Option<Key>, aes: &mut Aes, out: &mut FrameBuf) -> bool
    ensures payload { payloads.carried_of octets.now key.now ≡ payloads.held result out.new }
    ensures opened { (p : List ℕ) → payloads.payload_of octets.now key.now ≡ Some p → payloads.carried_of octets.now key.now ≡ Some p }
{
    match read_frame(octets) {
        Ok(raw) => decrypt_raw(&raw, key, aes, out),
        Err(_) => false,
    }
}
