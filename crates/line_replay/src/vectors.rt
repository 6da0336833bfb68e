//! The text of the command `vectors`: what the ciphers make of known inputs, most of them those of the standards.

ghost use Rattle.std.specs.Prelude.{◌≡◌, ◌≤◌, ◌+◌, ◌*◌, ◌++◌, length};
ghost use Rattle.hex.specs.Hex.{encode_lower};
ghost use Rattle.line_replay.specs.VectorsText.{aes128, ccm1, cmac_key, cmac0, cmac16, eax0, line, vectors_text};

use aes_modes::{Aes, ccm_seal, cmac, eax_seal};
use plc_base::{Key, Octets};

/// How many octets the text of the command `vectors` has.
pub const TEXT_LENGTH: usize = 225;

/// The text of the command `vectors`. It takes no memory.
pub fn vectors_text() -> Octets<TEXT_LENGTH>
    ensures { result ≡ vectors_text }
{
    let mut text = Octets::new();
    append_line(&mut text, b"aes128", &aes128());
    append_line(&mut text, b"cmac0", &cmac0());
    append_line(&mut text, b"cmac16", &cmac16());
    append_line(&mut text, b"eax0", &eax0());
    append_line(&mut text, b"ccm1", ccm1().octets());
    text
}

/// Appends the line of a name and a value.
fn append_line(text: &mut Octets<TEXT_LENGTH>, name: &[u8], value: &[u8])
    requires { length text.old + length name.now + 2 * length value.now + 2 ≤ TEXT_LENGTH }
    ensures text { text.new ≡ text.old ++ line name.now value.now }
    ensures length { length text.new ≡ length text.old + length name.now + 2 * length value.now + 2 }
{
    text.append(name);
    text.push(b' ');
    append_hex(text, value);
    text.push(b'\n');
}

/// Appends octets in lower-case hexadecimal.
fn append_hex(text: &mut Octets<TEXT_LENGTH>, octets: &[u8])
    requires { length text.old + 2 * length octets.now ≤ TEXT_LENGTH }
    ensures text { text.new ≡ text.old ++ encode_lower octets.now }
    ensures length { length text.new ≡ length text.old + 2 * length octets.now }
{
    for octet in octets {
        let mut digits = [0; 2];
        hex::encode_to_slice([*octet], &mut digits).unwrap();
        text.append(&digits);
    }
}

/// The block of FIPS 197, appendix C.1.
fn aes128() -> [u8; 16]
    ensures { result ≡ aes128 }
{
    let aes = Aes::new(&Key([
        0x00, 0x01, 0x02, 0x03, 0x04, 0x05, 0x06, 0x07, 0x08, 0x09, 0x0a, 0x0b, 0x0c, 0x0d, 0x0e,
        0x0f,
    ]));
    aes.encrypt_block(&[
        0x00, 0x11, 0x22, 0x33, 0x44, 0x55, 0x66, 0x77, 0x88, 0x99, 0xaa, 0xbb, 0xcc, 0xdd, 0xee,
        0xff,
    ])
}

/// The cipher under the key of RFC 4493, section 4.
fn cmac_cipher() -> Aes
    ensures { result ≡ cmac_key }
{
    Aes::new(&Key([
        0x2b, 0x7e, 0x15, 0x16, 0x28, 0xae, 0xd2, 0xa6, 0xab, 0xf7, 0x15, 0x88, 0x09, 0xcf, 0x4f,
        0x3c,
    ]))
}

/// The tag of no octet (RFC 4493, section 4, example 1).
fn cmac0() -> [u8; 16]
    ensures { result ≡ cmac0 }
{
    cmac(&cmac_cipher(), &[])
}

/// The tag of 16 octets (RFC 4493, section 4, example 2).
fn cmac16() -> [u8; 16]
    ensures { result ≡ cmac16 }
{
    cmac(
        &cmac_cipher(),
        &[
            0x6b, 0xc1, 0xbe, 0xe2, 0x2e, 0x40, 0x9f, 0x96, 0xe9, 0x3d, 0x7e, 0x11, 0x73, 0x93,
            0x17, 0x2a,
        ],
    )
}

/// The tag of a header and no text (the EAX paper, its first test vector).
fn eax0() -> [u8; 16]
    ensures { result ≡ eax0 }
{
    let aes = Aes::new(&Key([
        0x23, 0x39, 0x52, 0xde, 0xe4, 0xd5, 0xed, 0x5f, 0x9b, 0x9c, 0x6d, 0x6f, 0xf8, 0x0f, 0xf4,
        0x78,
    ]));
    let nonce = [
        0x62, 0xec, 0x67, 0xf9, 0xc3, 0xa4, 0xa4, 0x07, 0xfc, 0xb2, 0xa8, 0xc4, 0x90, 0x31, 0xa8,
        0xb3,
    ];
    let header = [0x6b, 0xfb, 0x91, 0x4f, 0xd0, 0x7e, 0xae, 0x6b];
    eax_seal(&aes, &nonce, &header, &mut [])
}

/// The encrypted text and its tag of 8 octets (RFC 3610, section 8, packet vector 1).
fn ccm1() -> Octets<31>
    ensures { result ≡ ccm1 }
{
    let aes = Aes::new(&Key([
        0xc0, 0xc1, 0xc2, 0xc3, 0xc4, 0xc5, 0xc6, 0xc7, 0xc8, 0xc9, 0xca, 0xcb, 0xcc, 0xcd, 0xce,
        0xcf,
    ]));
    let nonce = [
        0x00, 0x00, 0x00, 0x03, 0x02, 0x01, 0x00, 0xa0, 0xa1, 0xa2, 0xa3, 0xa4, 0xa5,
    ];
    let header = [0x00, 0x01, 0x02, 0x03, 0x04, 0x05, 0x06, 0x07];
    let mut text = [
        0x08, 0x09, 0x0a, 0x0b, 0x0c, 0x0d, 0x0e, 0x0f, 0x10, 0x11, 0x12, 0x13, 0x14, 0x15, 0x16,
        0x17, 0x18, 0x19, 0x1a, 0x1b, 0x1c, 0x1d, 0x1e,
    ];
    let mut tag = [0; 8];
    ccm_seal(&aes, &nonce, &header, &mut text, &mut tag);
    let mut sealed = Octets::new();
    sealed.append(&text);
    sealed.append(&tag);
    sealed
}
