//! Parts of the bytes that came.
ghost use Rattle.std.specs.Prelude.{◌≡◌, ◌≤◌, length, take, drop};
ghost use Rattle.http_wire.specs.declared.front.TheConstants.{HEAD_LIMIT};

/// The most bytes of a head, with the empty lines before it.
pub const HEAD_LIMIT: usize = 16_384;

/// The most line feeds of a head: those of the start line, of each field line and of the empty line.
pub const LINE_LIMIT: usize = 66;

/// The most field lines of a head.
pub const FIELD_LIMIT: usize = 64;

/// The bytes in which a head must end.
pub(crate) fn window(bytes: &[u8]) -> &[u8]
    ensures { result.now ≡ take HEAD_LIMIT bytes.now }
{
    if bytes.len() < HEAD_LIMIT {
        bytes
    } else {
        &bytes[..HEAD_LIMIT]
    }
}

/// The first `len` bytes.
pub(crate) fn front_of(bytes: &[u8], len: usize) -> &[u8]
    requires { len ≤ length bytes.now }
    ensures { result.now ≡ take len bytes.now }
{
    &bytes[..len]
}

/// The bytes from a place on.
pub(crate) fn behind(bytes: &[u8], at: usize) -> &[u8]
    requires { at ≤ length bytes.now }
    ensures { result.now ≡ drop at bytes.now }
{
    &bytes[at..]
}
