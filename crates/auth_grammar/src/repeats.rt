//! Names that come twice.
ghost use Rattle.std.specs.Prelude.{◌≡◌, IfErr, IfOk, OnOk, false, map, not, true};
ghost use Rattle.std.specs.BTreeSet.{Updates, contains};
ghost use Rattle.std.specs.Cmp.Lexicographic.{slice_cmp};
ghost use Rattle.std.specs.List.{list_any};
ghost use Rattle.std.specs.Ordering.{nat_cmp};
ghost use Rattle.auth_grammar.specs.Names.{has_repeat, lower, same_name};
ghost use Rattle.auth_grammar.specs.Items.{unplaced};
ghost use Rattle.auth_grammar.specs.Repeats.{AreSingle, RefusesList, RefusesLists, lists_in, params_in};

use crate::error::GrammarError;
use crate::groups::{Group, Grouped, Placed};
use crate::names::same_name;
use crate::octets::{Octets, OutOfMemory};
use std::alloc::Global;
use std::collections::BTreeSet;

/// So many parameters are few: their names are compared each with each.
const FEW: usize = 16;

/// Refuses items in one of which a name comes twice. For n names it makes n log n comparisons.
pub fn check_names(alloc: Global, x: &Grouped) -> Result<(), GrammarError>
    ensures single { OnOk result (AreSingle (lists_in x.now)) }
    ensures refused { IfErr result (RefusesLists (lists_in x.now)) }
{
    check_list(alloc, x.params.as_slice())?;
    check_groups(alloc, x.groups.as_slice())
}

/// The same of items alone.
fn check_groups(alloc: Global, groups: &[Group]) -> Result<(), GrammarError>
    ensures single { OnOk result (AreSingle (map params_in groups.now)) }
    ensures refused { IfErr result (RefusesLists (map params_in groups.now)) }
{
    for group in groups {
        check_list(alloc, group.params())?;
    }
    Ok(())
}

/// The same of one list of parameters.
fn check_list(alloc: Global, params: &[Placed]) -> Result<(), GrammarError>
    ensures single { OnOk result (has_repeat (unplaced params.now) ≡ false) }
    ensures refused { IfErr result (RefusesList params.now) }
{
    if params.len() <= FEW {
        check_few(alloc, params)
    } else {
        check_many(alloc, params)
    }
}

/// The same, with as many comparisons as there are pairs, and no memory.
fn check_few(alloc: Global, params: &[Placed]) -> Result<(), GrammarError>
    ensures single { OnOk result (has_repeat (unplaced params.now) ≡ false) }
    ensures refused { IfErr result (RefusesList params.now) }
{
    for (i, placed) in params.iter().enumerate() {
        let name = placed.param.name.bytes();
        if has_name(&params[..i], name) {
            return Err(GrammarError::Twice {
                at: placed.at,
                name: Octets::of(alloc, name)?,
            });
        }
    }
    Ok(())
}

/// Whether a parameter has that name.
fn has_name(params: &[Placed], name: &[u8]) -> bool
    ensures { result ≡ list_any (λ placed. same_name placed.param.name name.now) params.now }
{
    params
        .iter()
        .any(|placed| same_name(placed.param.name.bytes(), name))
}

/// The same, with a set of the names.
fn check_many(alloc: Global, params: &[Placed]) -> Result<(), GrammarError>
    ensures single { OnOk result (has_repeat (unplaced params.now) ≡ false) }
    ensures refused { IfErr result (RefusesList params.now) }
{
    let mut names = BTreeSet::new(alloc);
    for placed in params {
        let name = placed.param.name.bytes();
        if !add_name(alloc, &mut names, name)? {
            return Err(GrammarError::Twice {
                at: placed.at,
                name: Octets::of(alloc, name)?,
            });
        }
    }
    Ok(())
}

/// Adds a name in lower case. Ok(false) says that the set has it.
fn add_name(alloc: Global, names: &mut BTreeSet<Octets>, name: &[u8]) -> Result<bool, OutOfMemory>
    ensures fresh { IfOk result (λ fresh. fresh ≡ not (contains (slice_cmp nat_cmp) names.old (lower name.now))) }
    ensures names { OnOk result (Updates (slice_cmp nat_cmp) names.old names.new (lower name.now) true) }
{
    let key = lowercase(alloc, name)?;
    Ok(names.insert(key)?)
}

/// A copy in lower case.
fn lowercase(alloc: Global, name: &[u8]) -> Result<Octets, OutOfMemory>
    ensures { IfOk result (λ copy. copy ≡ lower name.now) }
{
    let bytes: Vec<u8> = name.iter().map(|b| b.to_ascii_lowercase()).collect(alloc)?;
    Ok(Octets::from_vec(bytes))
}
