//! The fields that are passed on.
ghost use Rattle.std.specs.Prelude.{◌≡◌, ◌++◌, IfOk, OnOk, filter};
ghost use Rattle.proxy_core.specs.Fields.{is_among, is_passed, lines_up, names_kept, own_names, passed_lines, via_line};

use auth_grammar::{Octets, OutOfMemory, same_name};
use http_wire::{Fields, Pair, PairList};
use std::alloc::Global;

/// Which way fields are passed on.
#[derive(Clone, Copy)]
pub(crate) enum Way {
    /// To a request's target.
    Up,
    /// To who asked.
    Back,
}

/// Whether a field belongs to one connection, to one message, or to this proxy's own authentication.
fn is_own_name(name: &[u8]) -> bool
    ensures { result ≡ is_among own_names name.now }
{
    same_name(name, b"host")
        || same_name(name, b"content-length")
        || same_name(name, b"expect")
        || same_name(name, b"connection")
        || same_name(name, b"proxy-connection")
        || same_name(name, b"keep-alive")
        || same_name(name, b"te")
        || same_name(name, b"upgrade")
        || same_name(name, b"proxy-authorization")
}

fn is_kept_name(way: Way, name: &[u8]) -> bool
    ensures { result ≡ is_among (names_kept way) name.now }
{
    match way {
        Way::Up => is_own_name(name),
        Way::Back => {
            same_name(name, b"transfer-encoding") || same_name(name, b"date") || is_own_name(name)
        }
    }
}

/// Whether a field of this name is passed on, where it is one of these.
fn is_passed(way: Way, fields: &Fields, name: &[u8]) -> bool
    ensures { result ≡ is_passed way fields.now name.now }
{
    !is_kept_name(way, name) && !fields.has_token(b"connection", name)
}

/// Adds those of these pairs that are passed on, where all are these fields.
fn put_passed(
    lines: &mut PairList,
    way: Way,
    fields: &Fields,
    pairs: PairList,
) -> Result<(), OutOfMemory>
    ensures { OnOk result (lines.new ≡ lines.old ++ filter (λ pair. is_passed way fields.now pair.name) pairs) }
{
    for pair in pairs.into_vec() {
        if is_passed(way, fields, pair.name.bytes()) {
            lines.push(pair)?;
        }
    }
    Ok(())
}

/// The lines of the fields that are passed on.
pub(crate) fn passed_lines(
    alloc: Global,
    way: Way,
    fields: &Fields,
) -> Result<PairList, OutOfMemory>
    ensures { IfOk result (λ lines. lines ≡ passed_lines way fields.now) }
{
    let pairs = fields.pairs(alloc)?;
    let mut lines = PairList::new(alloc);
    put_passed(&mut lines, way, fields, pairs)?;
    Ok(lines)
}

/// What names this proxy.
fn via_line(alloc: Global) -> Result<Pair, OutOfMemory>
    ensures { IfOk result (λ line. line ≡ via_line) }
{
    let name = Octets::of(alloc, b"via")?;
    let value = Octets::of(alloc, b"1.1 authd")?;
    Ok(Pair { name, value })
}

/// The lines of a request that goes up.
pub(crate) fn lines_up(alloc: Global, fields: &Fields) -> Result<PairList, OutOfMemory>
    ensures { IfOk result (λ lines. lines ≡ lines_up fields.now) }
{
    let mut lines = passed_lines(alloc, Way::Up, fields)?;
    lines.push(via_line(alloc)?)?;
    Ok(lines)
}
