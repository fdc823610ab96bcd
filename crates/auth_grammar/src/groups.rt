//! Items as they are spelled, with the places of their names.
ghost use Rattle.std.specs.Prelude.{◌≡◌, IfOk, map};
ghost use Rattle.auth_grammar.specs.Items.{item_of, unplaced};
ghost use Rattle.auth_grammar.specs.Repeats.{params_in};

use crate::items::{Item, ItemList, Param, ParamList, Rest};
use crate::octets::{Octets, OutOfMemory};
use crate::sequence::Sequence;
use std::alloc::Global;

/// A parameter whose name stands at a place.
#[derive(Drop)]
pub struct Placed {
    pub at: u32,
    pub param: Param,
}

/// An item as it is spelled: a scheme with its parameters, of which there may be none, or with a
/// token68.
#[derive(Drop)]
pub enum Group {
    WithParams(Octets, Sequence<Placed>),
    WithToken68(Octets, Octets),
}

impl Group {
    /// Its parameters.
    pub fn params(&self) -> &[Placed]
        ensures { result.now ≡ params_in self.now }
    {
        match self {
            Group::WithParams(_, params) => params.as_slice(),
            Group::WithToken68(_, _) => &[],
        }
    }
}

/// What a text spells: parameters that come before any scheme, and items.
#[derive(Drop)]
pub struct Grouped {
    pub params: Sequence<Placed>,
    pub groups: Sequence<Group>,
}

/// The parameters without their places.
pub fn unplaced(alloc: Global, placed: Sequence<Placed>) -> Result<ParamList, OutOfMemory>
    ensures { IfOk result (λ params. params ≡ unplaced placed) }
{
    let params: Vec<Param> = placed
        .into_vec()
        .into_iter()
        .map(|placed| placed.param)
        .collect(alloc)?;
    Ok(Sequence::from_vec(params))
}

/// The item without the places of its names.
pub fn unplaced_item(alloc: Global, group: Group) -> Result<Item, OutOfMemory>
    ensures { IfOk result (λ item. item ≡ item_of group) }
{
    match group {
        Group::WithParams(scheme, placed) => {
            let rest = if placed.is_empty() {
                Rest::Empty
            } else {
                Rest::Params(unplaced(alloc, placed)?)
            };
            Ok(Item { scheme, rest })
        }
        Group::WithToken68(scheme, token68) => Ok(Item {
            scheme,
            rest: Rest::Token68(token68),
        }),
    }
}

/// The items without the places of their names.
pub fn unplaced_items(alloc: Global, groups: Sequence<Group>) -> Result<ItemList, OutOfMemory>
    ensures { IfOk result (λ items. items ≡ map item_of groups) }
{
    let mut items = ItemList::new(alloc);
    for group in groups.into_vec() {
        items.push(unplaced_item(alloc, group)?)?;
    }
    Ok(items)
}
