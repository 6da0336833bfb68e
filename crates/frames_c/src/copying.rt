//! Writes what was made to the buffer of the caller.
ghost use Rattle.std.specs.Prelude.{◌≡◌, ◌≤◌, ◌++◌, length, drop};

/// Copies octets to the start of a buffer that has room for them. The rest of it stays.
pub fn write_front(buffer: &mut [u8], octets: &[u8])
    requires { length octets.now ≤ length buffer.old }
    ensures { buffer.new ≡ octets.now ++ drop (length octets.now) buffer.old }
{
    let (front, _) = buffer.split_at_mut(octets.len());
    front.copy_from_slice(octets);
}
