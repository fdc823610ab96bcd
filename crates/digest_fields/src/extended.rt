//! Values that name their charset.
ghost use Rattle.std.specs.Prelude.{◌≡◌, ◌==◌, ◌<◌, IfSome, length, option_copied, option_map, position};
ghost use Rattle.digest_fields.specs.Extended.{escaped_name, parts_at_quote};

use auth_grammar::{is_token, same_name};

/// The escaped name of `UTF-8'language'name` (RFC 8187 section 3.2.1).
#[tactic(auto, unfolding(crate::specs::Extended::escaped_name))]
pub(crate) fn escaped_name(text: &[u8]) -> Option<&[u8]>
    ensures { option_copied result ≡ escaped_name text.now }
{
    let (charset, rest) = parts_at_quote(text)?;
    let (language, name) = parts_at_quote(rest)?;
    if same_name(charset, b"UTF-8") && (language.is_empty() || is_token(language)) {
        Some(name)
    } else {
        None
    }
}

/// What stands before and behind the first apostrophe.
#[tactic(auto, unfolding(crate::specs::Extended::parts_at_quote))]
fn parts_at_quote(text: &[u8]) -> Option<(&[u8], &[u8])>
    ensures { option_map (λ parts. (parts.0.now, parts.1.now)) result ≡ parts_at_quote text.now }
{
    let at = quote_at(text)?;
    Some((&text[..at], &text[at + 1..]))
}

/// Where the first apostrophe stands.
fn quote_at(text: &[u8]) -> Option<usize>
    ensures place { result ≡ position (λ byte. byte == 39) text.now }
    ensures within { IfSome result (λ at. at < length text.now) }
{
    text.iter().position(|&byte| byte == b'\'')
}
