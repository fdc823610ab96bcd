//! Reading challenges, credentials and parameters.
ghost use Rattle.std.specs.Prelude.{◌≡◌, IfErr, IfOk};
ghost use Rattle.std.specs.List.{join_with_byte};
ghost use Rattle.auth_grammar.specs.Answers.{AnswersChallenges, AnswersCredentials, AnswersParams, Refuses};
ghost use Rattle.auth_grammar.specs.Items.{SpellsOnly};
ghost use Rattle.auth_grammar.specs.Repeats.{AreSingle, lists_in};

use crate::error::GrammarError;
use crate::grammar::Grammar;
use crate::groups::{Grouped, unplaced, unplaced_item, unplaced_items};
use crate::items::{Item, ItemList, OctetsList, ParamList};
use crate::octets::{Octets, OutOfMemory};
use crate::reader::read;
use crate::repeats::check_names;
use std::alloc::Global;

/// Reads challenges, as of the field lines of `WWW-Authenticate` (RFC 9110 section 11.6.1). The
/// lines of a field are one text, joined with a comma each. Its time is linear in the text's
/// length, but for n names in one item n log n comparisons. A text of 2^32 bytes or more is
/// answered as want of memory.
pub fn read_challenges(alloc: Global, lines: &OctetsList) -> Result<ItemList, GrammarError>
    ensures { AnswersChallenges (join_with_byte 44 lines.now) result }
{
    let text = joined(alloc, lines)?;
    read_text(alloc, text.bytes())
}

/// Reads challenges from one text.
pub fn read_text(alloc: Global, text: &[u8]) -> Result<ItemList, GrammarError>
    ensures { AnswersChallenges text.now result }
{
    let x = read_single(alloc, Grammar::Challenges, text)?;
    let Grouped { groups, .. } = x;
    Ok(unplaced_items(alloc, groups)?)
}

/// Reads credentials, as of `Authorization` (RFC 9110 section 11.6.2), which are one item. Time
/// and length are as for `read_challenges`.
pub fn read_credentials(alloc: Global, text: &[u8]) -> Result<Item, GrammarError>
    ensures { AnswersCredentials text.now result }
{
    let x = read_single(alloc, Grammar::Credentials, text)?;
    let Grouped { mut groups, .. } = x;
    match groups.pop() {
        Some(group) => Ok(unplaced_item(alloc, group)?),
        None => unreachable!(),
    }
}

/// Reads parameters alone, as of the field lines of `Authentication-Info` (RFC 9110 section
/// 11.6.3). Lines, time and length are as for `read_challenges`.
pub fn read_params(alloc: Global, lines: &OctetsList) -> Result<ParamList, GrammarError>
    ensures { AnswersParams (join_with_byte 44 lines.now) result }
{
    let text = joined(alloc, lines)?;
    let x = read_single(alloc, Grammar::Params, text.bytes())?;
    let Grouped { params, .. } = x;
    Ok(unplaced(alloc, params)?)
}

/// What a text spells, in which no name comes twice in one item.
fn read_single(alloc: Global, grammar: Grammar, text: &[u8]) -> Result<Grouped, GrammarError>
    ensures spelled { IfOk result (λ x. SpellsOnly grammar text.now x) }
    ensures single { IfOk result (λ x. AreSingle (lists_in x)) }
    ensures refused { IfErr result (λ e. Refuses grammar text.now e) }
{
    let x = read(alloc, grammar, text)?;
    check_names(alloc, &x)?;
    Ok(x)
}

/// The lines joined with a comma each.
fn joined(alloc: Global, lines: &OctetsList) -> Result<Octets, OutOfMemory>
    ensures { IfOk result (λ text. text ≡ join_with_byte 44 lines.now) }
{
    let mut text = Octets::new(alloc);
    for (i, line) in lines.as_slice().iter().enumerate() {
        if i > 0 {
            text.push(b',')?;
        }
        text.extend(line.bytes())?;
    }
    Ok(text)
}
