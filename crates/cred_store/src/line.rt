//! One line of a store's text, without its line feed.
ghost use Rattle.std.specs.Prelude.{◌≡◌, ◌≢◌, Bool, IfErr, IfNone, IfOk, IfSome};
ghost use Rattle.cred_store.specs.Faults.{HasParts, HasTail, IsFaulty, IsFlag, colons, line_colons, tail_colons};
ghost use Rattle.cred_store.specs.Texts.{IsEntry, entry_said, entry_text, tail_of};
ghost use Rattle.cred_store.specs.Values.{HasNo, flag_text};
ghost use Rattle.cred_store.specs.declared.version.Version.TheVariants.{Two};

use crate::entry::Secret;
use crate::error::LineFault;
use crate::kind::SecretKind;
use crate::value::secret_of;
use crate::version::Version;
use auth_grammar::{cut_at, is_plain_name};

/// The parts of a line. One without a flag has the flag `on`.
#[derive(Clone, Copy)]
struct Parts<'t> {
    name: &'t [u8],
    realm: &'t [u8],
    kind: &'t [u8],
    flag: &'t [u8],
    value: &'t [u8],
}

/// What a line says.
#[derive(Drop)]
pub(crate) struct Line<'t> {
    pub(crate) name: &'t [u8],
    pub(crate) realm: &'t [u8],
    pub(crate) secret: Secret,
    pub(crate) on: bool,
}

/// The flag, which is `on` where a line has none, and the rest of what stands behind the kind.
fn cut_flag(version: Version, tail: &[u8]) -> Option<(&[u8], &[u8])>
    ensures some { IfSome result (λ found. tail.now ≡ tail_of version found.0.now found.1.now) }
    ensures flag { IfSome result (λ found. IsFlag version found.0.now) }
    ensures none { IfNone result ((version ≡ Two) × HasNo 58 tail.now) }
{
    match version {
        Version::One => Some((b"on", tail)),
        Version::Two => cut_at(tail, b':'),
    }
}

/// The flag and the value, which stand behind the kind.
fn tail_parts(version: Version, tail: &[u8]) -> Option<(&[u8], &[u8])>
    ensures some { IfSome result (λ found. HasTail version tail.now found.0.now found.1.now) }
    ensures none { IfNone result (colons tail.now ≢ tail_colons version) }
{
    let Some((flag, value)) = cut_flag(version, tail) else {
        return None;
    };
    if value.contains(&b':') {
        return None;
    }
    Some((flag, value))
}

/// The parts of a line, between which its colons stand.
fn parts_of(version: Version, line: &[u8]) -> Option<Parts<'_>>
    ensures some { IfSome result (λ p. HasParts version line.now p.name.now p.realm.now p.kind.now p.flag.now p.value.now) }
    ensures none { IfNone result (colons line.now ≢ line_colons version) }
{
    let Some((name, rest)) = cut_at(line, b':') else {
        return None;
    };
    let Some((realm, rest)) = cut_at(rest, b':') else {
        return None;
    };
    let Some((kind, tail)) = cut_at(rest, b':') else {
        return None;
    };
    let Some((flag, value)) = tail_parts(version, tail) else {
        return None;
    };
    Some(Parts {
        name,
        realm,
        kind,
        flag,
        value,
    })
}

/// What a flag says, if it is one.
fn flag_of(flag: &[u8]) -> Option<bool>
    ensures some { IfSome result (λ on. flag.now ≡ flag_text on) }
    ensures none { IfNone result ((on : Bool) → flag.now ≢ flag_text on) }
{
    if flag == b"on".as_slice() {
        return Some(true);
    }
    if flag == b"off".as_slice() {
        return Some(false);
    }
    None
}

/// Reads a line, or says what is wrong with it first.
pub(crate) fn read_line(version: Version, line: &[u8]) -> Result<Line<'_>, LineFault>
    ensures entry { IfOk result (λ said. IsEntry version (entry_said said)) }
    ensures text { IfOk result (λ said. line.now ≡ entry_text version (entry_said said)) }
    ensures err { IfErr result (λ why. IsFaulty version why line.now) }
{
    let Some(parts) = parts_of(version, line) else {
        return Err(LineFault::Form);
    };
    if !is_plain_name(parts.name) {
        return Err(LineFault::Name);
    }
    if !is_plain_name(parts.realm) {
        return Err(LineFault::Realm);
    }
    let Some(kind) = SecretKind::named(parts.kind) else {
        return Err(LineFault::Kind);
    };
    let Some(on) = flag_of(parts.flag) else {
        return Err(LineFault::Flag);
    };
    let Some(secret) = secret_of(kind, parts.value) else {
        return Err(LineFault::Value);
    };
    Ok(Line {
        name: parts.name,
        realm: parts.realm,
        secret,
        on,
    })
}
