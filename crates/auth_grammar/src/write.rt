//! Writing items and parameters.
ghost use Rattle.std.specs.Prelude.{◌≡◌, ◌∷◌, ◌++◌, [], IfOk, IsTrue, OnOk, codes};
ghost use Rattle.std.specs.List.{list_all, list_any};
ghost use Rattle.auth_grammar.specs.Items.{SpellsChallenges, SpellsParams};
ghost use Rattle.auth_grammar.specs.Valid.{are_valid_params, is_valid};
ghost use Rattle.auth_grammar.specs.Writing.{escaped, is_bare_name, is_escaped, item_text, items_text, param_text, params_text, rest_text, separator_at, value_text};

use crate::items::{Item, ItemList, Param, ParamList, Quoting, Rest};
use crate::kinds::{Kind, kind_at};
use crate::names::same_name;
use crate::octets::{Octets, OutOfMemory};
use crate::valid::is_token;
use std::alloc::Global;

/// How many bytes a text has room for at first, so that a usual one is written with no growing.
const USUAL_BYTES: usize = 256;

/// Writes items in their one text: joined with `, `, and each value bare where it may be and is a
/// token, else in quotes. Of valid items (`Item::valid`) the text spells them again.
pub fn write_items(alloc: Global, items: &ItemList, quoting: Quoting) -> Result<Octets, OutOfMemory>
    ensures text { IfOk result (λ text. text ≡ items_text quoting items.now) }
    ensures spelled { IfOk result (λ text. IsTrue (list_all is_valid items.now) → SpellsChallenges text items.now) }
{
    let mut out = Octets::with_capacity(alloc, USUAL_BYTES)?;
    for (i, item) in items.as_slice().iter().enumerate() {
        push_separator(&mut out, i)?;
        push_item(&mut out, item, quoting)?;
    }
    Ok(out)
}

/// Writes parameters as `write_items` does.
pub fn write_params(
    alloc: Global,
    params: &ParamList,
    quoting: Quoting,
) -> Result<Octets, OutOfMemory>
    ensures text { IfOk result (λ text. text ≡ params_text quoting params.now) }
    ensures spelled { IfOk result (λ text. IsTrue (are_valid_params params.now) → SpellsParams text params.now) }
{
    let mut out = Octets::with_capacity(alloc, USUAL_BYTES)?;
    push_params(&mut out, params.as_slice(), quoting)?;
    Ok(out)
}

/// Adds a comma and a space, but not before the first part.
fn push_separator(out: &mut Octets, i: usize) -> Result<(), OutOfMemory>
    ensures { OnOk result (out.new ≡ out.old ++ separator_at i) }
{
    if i > 0 {
        out.extend(b", ")?;
    }
    Ok(())
}

/// Adds an item.
fn push_item(out: &mut Octets, item: &Item, quoting: Quoting) -> Result<(), OutOfMemory>
    ensures { OnOk result (out.new ≡ out.old ++ item_text quoting item.now) }
{
    out.extend(item.scheme.bytes())?;
    push_rest(out, &item.rest, quoting)
}

/// Adds what stands behind a scheme.
fn push_rest(out: &mut Octets, rest: &Rest, quoting: Quoting) -> Result<(), OutOfMemory>
    ensures { OnOk result (out.new ≡ out.old ++ rest_text quoting rest.now) }
{
    match rest {
        Rest::Empty => Ok(()),
        Rest::Token68(text) => {
            out.push(b' ')?;
            out.extend(text.bytes())
        }
        Rest::Params(params) => {
            out.push(b' ')?;
            push_params(out, params.as_slice(), quoting)
        }
    }
}

/// Adds parameters.
fn push_params(out: &mut Octets, params: &[Param], quoting: Quoting) -> Result<(), OutOfMemory>
    ensures { OnOk result (out.new ≡ out.old ++ params_text quoting params.now) }
{
    for (i, param) in params.iter().enumerate() {
        push_separator(out, i)?;
        push_param(out, param, quoting)?;
    }
    Ok(())
}

/// Adds a parameter.
fn push_param(out: &mut Octets, param: &Param, quoting: Quoting) -> Result<(), OutOfMemory>
    ensures { OnOk result (out.new ≡ out.old ++ param_text quoting param.now) }
{
    let (name, value) = (param.name.bytes(), param.value.bytes());
    out.extend(name)?;
    out.push(b'=')?;
    push_value(out, is_bare_name(quoting, name) && is_token(value), value)
}

/// Whether a value of that name stands without quotes where it is a token.
fn is_bare_name(quoting: Quoting, name: &[u8]) -> bool
    ensures { result ≡ is_bare_name quoting name.now }
{
    match quoting {
        Quoting::Challenge => {
            same_name(b"stale", name)
                || same_name(b"algorithm", name)
                || same_name(b"userhash", name)
                || same_name(b"charset", name)
                || same_name(b"ttl", name)
        }
        Quoting::Credentials => {
            same_name(b"algorithm", name)
                || same_name(b"qop", name)
                || same_name(b"nc", name)
                || same_name(b"userhash", name)
        }
        Quoting::Info => same_name(b"qop", name) || same_name(b"nc", name),
    }
}

/// Adds a value, bare or in quotes.
fn push_value(out: &mut Octets, bare: bool, value: &[u8]) -> Result<(), OutOfMemory>
    ensures { OnOk result (out.new ≡ out.old ++ value_text bare value.now) }
{
    if bare {
        out.extend(value)
    } else {
        out.push(b'"')?;
        push_escaped(out, value)?;
        out.push(b'"')
    }
}

/// Adds a value with a backslash before each quote and backslash.
#[tactic(auto, using(crate::proofs::Written::none_escaped))]
fn push_escaped(out: &mut Octets, value: &[u8]) -> Result<(), OutOfMemory>
    ensures { OnOk result (out.new ≡ out.old ++ escaped value.now) }
{
    if has_escaped(value) {
        push_each_escaped(out, value)
    } else {
        out.extend(value)
    }
}

/// Adds a value byte by byte, with a backslash before each quote and backslash.
fn push_each_escaped(out: &mut Octets, value: &[u8]) -> Result<(), OutOfMemory>
    ensures { OnOk result (out.new ≡ out.old ++ escaped value.now) }
{
    for b in value {
        push_quotable(out, *b)?;
    }
    Ok(())
}

/// Adds a byte, behind a backslash where it is a quote or a backslash.
fn push_quotable(out: &mut Octets, b: u8) -> Result<(), OutOfMemory>
    ensures { OnOk result (out.new ≡ out.old ++ escaped (b ∷ [])) }
{
    if is_escaped(b) {
        out.push(b'\\')?;
    }
    out.push(b)
}

/// Whether some byte stands behind a backslash in quotes.
fn has_escaped(value: &[u8]) -> bool
    ensures { result ≡ list_any is_escaped value.now }
{
    value.iter().any(|&b| is_escaped(b))
}

/// Whether a byte stands behind a backslash in quotes: a quote or a backslash.
fn is_escaped(b: u8) -> bool
    ensures { result ≡ is_escaped b }
{
    matches!(kind_at(b), Kind::Quote | Kind::Backslash)
}
