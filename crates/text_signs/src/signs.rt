//! Which characters are not shown.
ghost use Rattle.std.specs.Prelude.{◌≡◌};
ghost use Rattle.text_signs.specs.Signs.{is_control, is_nonsign, shown_sign};

/// Whether a character is a control character of ASCII or ISO 8859 (C0, DEL, C1), ends a line or a paragraph (U+2028, U+2029), or says which way a text runs
/// (U+061C, U+200E, U+200F, U+202A to U+202E, U+2066 to U+2069).
pub fn is_control(sign: char) -> bool
    ensures { result ≡ is_control sign }
{
    let code = sign as u32;
    code < 32
        || (127 <= code && code < 160)
        || code == 1_564
        || (8_206 <= code && code < 8_208)
        || (8_232 <= code && code < 8_239)
        || (8_294 <= code && code < 8_298)
}

// Whether Unicode says that it will never be a character: U+FDD0 to U+FDEF, and the last two of each plane.
fn is_nonsign(sign: char) -> bool
    ensures { result ≡ is_nonsign sign }
{
    let code = sign as u32;
    (64_976 <= code && code < 65_008) || 65_534 <= code % 65_536
}

// The character that is shown for one: a blank for a tab, U+FFFD for what is not shown.
pub(crate) fn shown_sign(sign: char) -> char
    ensures { result ≡ shown_sign sign }
{
    if sign == '\t' {
        return ' ';
    }
    if is_control(sign) || is_nonsign(sign) {
        return '\u{fffd}';
    }
    sign
}
