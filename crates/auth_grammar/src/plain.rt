//! Names as they stand in texts at rest, and passwords.
ghost use Rattle.std.specs.Prelude.{◌≡◌, ◌&&◌, nat_le, length};
ghost use Rattle.std.specs.List.{list_all};
ghost use Rattle.auth_grammar.specs.Plain.{is_printable, is_password, is_plain_byte, is_plain_name};

/// The most bytes of a user's name, and of a realm's.
pub const NAME_LIMIT: usize = 64;

/// The most bytes of a password.
pub const PASSWORD_LIMIT: usize = 128;

/// Whether the byte is printable ASCII, the space included.
pub fn is_printable(byte: u8) -> bool
    ensures { result ≡ is_printable byte }
{
    32 <= byte && byte <= 126
}

fn is_plain_byte(byte: u8) -> bool
    ensures { result ≡ is_plain_byte byte }
{
    is_printable(byte) && byte != b':'
}

/// Whether the text may stand as a user's name or a realm's in a text at rest: 1 to 64 printable bytes
/// without a colon.
pub fn is_plain_name(name: &[u8]) -> bool
    ensures { result ≡ is_plain_name name.now }
{
    has_name_length(name) && has_plain_bytes(name)
}

fn has_name_length(name: &[u8]) -> bool
    ensures { result ≡ (nat_le 1 (length name.now) && nat_le (length name.now) NAME_LIMIT) }
{
    1 <= name.len() && name.len() <= NAME_LIMIT
}

fn has_plain_bytes(name: &[u8]) -> bool
    ensures { result ≡ list_all is_plain_byte name.now }
{
    name.iter().all(|&byte| is_plain_byte(byte))
}

/// Whether the text may be a password: 1 to 128 printable bytes.
pub fn is_password(text: &[u8]) -> bool
    ensures { result ≡ is_password text.now }
{
    has_password_length(text) && are_printable(text)
}

fn has_password_length(text: &[u8]) -> bool
    ensures { result ≡ (nat_le 1 (length text.now) && nat_le (length text.now) PASSWORD_LIMIT) }
{
    1 <= text.len() && text.len() <= PASSWORD_LIMIT
}

fn are_printable(text: &[u8]) -> bool
    ensures { result ≡ list_all is_printable text.now }
{
    text.iter().all(|&byte| is_printable(byte))
}
