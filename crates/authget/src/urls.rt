//! URLs and authorities (RFC 9110 section 4.2.1).
ghost use Rattle.std.specs.Prelude.{◌≡◌, ◌==◌, codes, nat_eq};
ghost use Rattle.std.specs.List.{list_all, list_any, starts_with};
ghost use Rattle.authget.specs.Urls.{authority_of, behind_scheme, is_authority, is_path, is_path_byte, is_url, path_of};

use auth_grammar::{before_first, len_before};
use auth_io::{is_address, is_host};

const SCHEME: &[u8; 7] = b"http://";

fn has_colon(text: &[u8]) -> bool
    ensures { result ≡ list_any (λ b. b == 58) text.now }
{
    text.iter().any(|&byte| byte == b':')
}

/// Whether a text is a host, and a port where there is a colon.
fn is_authority(text: &[u8]) -> bool
    ensures { result ≡ is_authority text.now }
{
    if has_colon(text) {
        is_address(text)
    } else {
        is_host(text)
    }
}

/// What stands behind `http://`.
fn behind_scheme(url: &[u8]) -> &[u8]
    ensures { result.now ≡ behind_scheme url.now }
{
    &url[SCHEME.len().min(url.len())..]
}

/// The authority of a URL.
pub(crate) fn authority_of(url: &[u8]) -> &[u8]
    ensures { result.now ≡ authority_of url.now }
{
    before_first(behind_scheme(url), b'/')
}

/// The path of a URL, with whatever stands behind it.
pub(crate) fn path_of(url: &[u8]) -> &[u8]
    ensures { result.now ≡ path_of url.now }
{
    let text = behind_scheme(url);
    &text[len_before(text, b'/')..]
}

fn is_path_byte(byte: u8) -> bool
    ensures { result ≡ is_path_byte byte }
{
    33 <= byte && byte <= 126 && byte != b'#'
}

fn has_path_bytes(path: &[u8]) -> bool
    ensures { result ≡ list_all is_path_byte path.now }
{
    path.iter().all(|&byte| is_path_byte(byte))
}

fn is_path(path: &[u8]) -> bool
    ensures { result ≡ is_path path.now }
{
    !path.is_empty() && has_path_bytes(path)
}

fn has_scheme(url: &[u8]) -> bool
    ensures { result ≡ starts_with nat_eq url.now (codes "http://") }
{
    url.starts_with(SCHEME)
}

/// Whether a word is a URL: `http://`, an authority, and a path.
pub(crate) fn is_url(url: &[u8]) -> bool
    ensures { result ≡ is_url url.now }
{
    has_scheme(url) && is_authority(authority_of(url)) && is_path(path_of(url))
}
