//! Writing parameters.
ghost use Rattle.std.specs.Prelude.{◌≡◌, ◌++◌, IfOk, OnOk};
ghost use Rattle.digest_fields.specs.Write.{digest_item, written, written_some, written_true};

use crate::field::FieldName;
use auth_grammar::{Item, Octets, OutOfMemory, Param, ParamList, Rest};
use std::alloc::Global;

/// Adds a parameter at the list's end.
pub(crate) fn add(
    alloc: Global,
    params: &mut ParamList,
    name: FieldName,
    value: &[u8],
) -> Result<(), OutOfMemory>
    ensures { OnOk result (params.new ≡ params.old ++ written name value.now) }
{
    params.push(Param::of(alloc, name.text(), value)?)
}

/// Adds a parameter that has a value.
pub(crate) fn add_some(
    alloc: Global,
    params: &mut ParamList,
    name: FieldName,
    value: &Option<Octets>,
) -> Result<(), OutOfMemory>
    ensures { OnOk result (params.new ≡ params.old ++ written_some name value.now) }
{
    match value {
        Some(value) => add(alloc, params, name, value.bytes()),
        None => Ok(()),
    }
}

/// Adds a parameter that is `true`.
pub(crate) fn add_true(
    alloc: Global,
    params: &mut ParamList,
    name: FieldName,
    flag: bool,
) -> Result<(), OutOfMemory>
    ensures { OnOk result (params.new ≡ params.old ++ written_true name flag) }
{
    if flag {
        add(alloc, params, name, b"true")
    } else {
        Ok(())
    }
}

/// The item of these parameters.
pub(crate) fn digest_item(alloc: Global, params: ParamList) -> Result<Item, OutOfMemory>
    ensures { IfOk result (λ item. item ≡ digest_item params) }
{
    Ok(Item {
        scheme: Octets::of(alloc, b"Digest")?,
        rest: Rest::Params(params),
    })
}
