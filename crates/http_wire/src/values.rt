//! What the values of a field say.
ghost use Rattle.std.specs.Prelude.{◌≡◌, ◌≤◌, reverse, true, Some, None, if◌then◌else◌, nat_le};
ghost use Rattle.std.specs.List.{list_all, list_any};
ghost use Rattle.std.specs.Char.{is_ascii_digit};
ghost use Rattle.std.specs.Str.Parse.{digits_value};
ghost use Rattle.httparse.specs.Grammar.{skip_ows, trim_ows};
ghost use Rattle.auth_grammar.specs.Names.{same_name};
ghost use Rattle.http_wire.specs.Values.{is_number, parts_at_commas};

use auth_grammar::same_name;

/// What a message's lines of one name say (RFC 9110 section 5.2).
#[derive(Clone, Copy)]
pub enum Values<'a> {
    /// There is no such line.
    Absent,
    /// There is one, with this value.
    One(&'a [u8]),
    /// There are several.
    Several,
}

fn all_digits(bytes: &[u8]) -> bool
    ensures { result ≡ list_all is_ascii_digit bytes.now }
{
    bytes.iter().all(|b| b.is_ascii_digit())
}

pub(crate) fn is_number(bytes: &[u8]) -> bool
    ensures { result ≡ is_number bytes.now }
{
    bytes.len() > 0 && all_digits(bytes)
}

/// The number that digits write, where it isn't above the limit.
pub(crate) fn number(digits: &[u8], limit: u32) -> Option<u32>
    requires written { is_number digits.now ≡ true }
    requires room { limit ≤ 100_000_000 }
    ensures { result ≡ (if nat_le (digits_value 10 digits.now) limit then Some (digits_value 10 digits.now) else None) }
{
    let mut n = 0;
    for b in digits {
        n = n * 10 + (*b - 48) as u32;
        if n > limit {
            return None;
        }
    }
    Some(n)
}

fn trim_front(bytes: &[u8]) -> &[u8]
    ensures { result.now ≡ skip_ows bytes.now }
{
    let mut rest = bytes;
    while let [b' ' | b'\t', after @ ..] = rest {
        rest = after;
    }
    rest
}

fn trim_back(bytes: &[u8]) -> &[u8]
    ensures { result.now ≡ reverse (skip_ows (reverse bytes.now)) }
{
    let mut rest = bytes;
    while let [before @ .., b' ' | b'\t'] = rest {
        rest = before;
    }
    rest
}

#[tactic(auto, unfolding(httparse::specs::Grammar::trim_ows))]
fn trim(bytes: &[u8]) -> &[u8]
    ensures { result.now ≡ trim_ows bytes.now }
{
    trim_back(trim_front(bytes))
}

/// Whether a part between commas is that token, without regard to case.
pub(crate) fn has_part(value: &[u8], token: &[u8]) -> bool
    ensures { result ≡ list_any (λ part. same_name (trim_ows part) token.now) (parts_at_commas value.now) }
{
    value
        .split(|b| *b == b',')
        .any(|part| same_name(trim(part), token))
}
