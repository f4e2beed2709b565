//! Parts of a list of bytes that lies in one piece, each moved at once.
ghost use Rattle.std.specs.Prelude.{◌≡◌, ◌+◌, ◌≤◌, drop, length, take};
ghost use Rattle.base.specs.Bytes.{overwritten};

/// Copies the bytes from a place on out, which are all there.
pub fn copy_part(bytes: &[u8], place: usize, out: &mut [u8])
    requires { place + length out.old ≤ length bytes.now }
    ensures { out.new ≡ take (length out.old) (drop place bytes.now) }
{
    let end = place + out.len();
    out.copy_from_slice(&bytes[place..end]);
}

/// Writes a part over the bytes from a place on, which are all there.
pub fn put_part(bytes: &mut [u8], place: usize, part: &[u8])
    requires { place + length part.now ≤ length bytes.old }
    ensures { bytes.new ≡ overwritten bytes.old place part.now }
{
    let end = place + part.len();
    bytes[place..end].copy_from_slice(part);
}
