//! Messages as parts with commas between them.
ghost use Rattle.std.specs.Prelude.{◌≡◌, ◌≤◌, ℕ, List, ◌∷◌, ◌++◌, length, IfErr, IfNone, IfOk, IfSome};
ghost use Rattle.scram_text.specs.Parts.{AreExtensions, BreaksOff, Ends, FirstPart, HoldsFirst, HoldsLast, IsAtComma, IsAttribute};
ghost use Rattle.scram_text.specs.Reaching.{Halts};

use crate::attribute::Attribute;
use auth_grammar::{behind, cut_at};

/// The content of the first part and what stands behind the comma after it, where the part is such an attribute; else
/// how far the text goes on.
pub(crate) fn next_part(attribute: Attribute, text: &[u8]) -> Result<(&[u8], &[u8]), usize>
    ensures ok { IfOk result (λ found. HoldsFirst attribute text.now found.0.now found.1.now) }
    ensures err { IfErr result (λ at. BreaksOff (IsAttribute attribute) text.now at) }
    ensures within { IfErr result (λ at. at ≤ length text.now) }
{
    let (part, more) = first_part(text);
    let Some(content) = attribute.content_of(part) else {
        return Err(attribute.reach(part));
    };
    let Some(rest) = behind(more, b",") else {
        return Err(attribute.reach(part));
    };
    Ok((content, rest))
}

/// The content of the first part, where it is such an attribute and extensions alone stand behind it; else how far the
/// text goes on.
pub(crate) fn last_part(attribute: Attribute, text: &[u8]) -> Result<&[u8], usize>
    ensures ok { IfOk result (λ found. HoldsLast attribute text.now found.now) }
    ensures err { IfErr result (λ at. Halts (Ends (IsAttribute attribute)) text.now at) }
    ensures within { IfErr result (λ at. at ≤ length text.now) }
{
    let (part, more) = first_part(text);
    let Some(content) = attribute.content_of(part) else {
        return Err(attribute.reach(part));
    };
    match extensions_fault(more) {
        Some(at) => Err(part.len() + at),
        None => Ok(content),
    }
}

/// How far the text goes on as extensions with a comma before each, where it isn't that.
fn extensions_fault(text: &[u8]) -> Option<usize>
    requires { IsAtComma text.now }
    ensures none { IfNone result (AreExtensions text.now) }
    ensures some { IfSome result (λ at. Halts AreExtensions text.now at) }
    ensures within { IfSome result (λ at. at ≤ length text.now) }
{
    let mut rest = text;
    while let Some(more) = behind(rest, b",") {
        let (part, next) = first_part(more);
        let Some(_) = Attribute::Extension.content_of(part) else {
            return Some(text.len() - more.len() + Attribute::Extension.reach(part));
        };
        rest = next;
    }
    None
}

/// The text up to its first comma, and the rest.
pub(crate) fn first_part(text: &[u8]) -> (&[u8], &[u8])
    ensures { FirstPart text.now result.0.now result.1.now }
{
    match cut_at(text, b',') {
        Some((part, _)) => text.split_at(part.len()),
        None => (text, &[]),
    }
}
