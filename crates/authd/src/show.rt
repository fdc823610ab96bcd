//! The command `show`: the items that the lines of a field spell.
ghost use Rattle.std.specs.Prelude.{◌≡◌, ◌++◌, ◌∷◌, [], Err, IfOk, OnOk};
ghost use Rattle.auth_io.specs.Causes.{Rose};
ghost use Rattle.connection_loop.specs.Account.{link_of};
ghost use Rattle.auth_grammar.specs.Writing.{item_text};
ghost use Rattle.auth_grammar.specs.declared.items.Quoting.TheVariants as quoting;
ghost use Rattle.authd.specs.Show.{IsShown, Shows, item_lines};

use crate::failure::{Failure, Fault, Refusal};
use crate::input::read_input;
use crate::lines::lines_of;
use crate::printing::print;
use auth_grammar::{
    GrammarError, Item, ItemList, Octets, OutOfMemory, Quoting, read_challenges, write_items,
};
use auth_io::Link;
use std::alloc::Global;

/// Reads the lines of a field with challenges to the end of the input, and writes each item in its one text on a line.
/// An input of more than 16,384 bytes is refused. Nothing is written of an input that is refused.
pub(crate) fn show<L: Link>(alloc: Global, link: &mut L) -> Result<(), Failure>
    ensures shows { let at = link_of L.left L.given L.written L.reads in Shows (at link.old) (at link.new) result }
    ensures read_fault { result ≡ Err (Failure.Fault Fault.Read) → Rose (L.read_faults link.old) (L.read_faults link.new) }
    ensures write_fault { result ≡ Err (Failure.Fault Fault.Write) → Rose (L.write_faults link.old) (L.write_faults link.new) }
{
    let input = read_input(alloc, link)?;
    let text = shown(alloc, input.bytes())?;
    print(link, text.bytes())
}

/// What is to be written for an input.
fn shown(alloc: Global, input: &[u8]) -> Result<Octets, Failure>
    ensures { IsShown input.now result }
{
    let lines = lines_of(alloc, input)?;
    match read_challenges(alloc, &lines) {
        Ok(items) => Ok(item_lines(alloc, items)?),
        Err(GrammarError::NotGrammar { at }) => Err(Failure::Refused(Refusal::NotGrammar { at })),
        Err(GrammarError::Twice { at, .. }) => Err(Failure::Refused(Refusal::Twice { at })),
        Err(GrammarError::OutOfMemory) => Err(Failure::OutOfMemory),
    }
}

/// The text of items, each on a line.
fn item_lines(alloc: Global, items: ItemList) -> Result<Octets, OutOfMemory>
    ensures { IfOk result (λ text. text ≡ item_lines items) }
{
    let mut text = Octets::new(alloc);
    for item in items.into_vec() {
        push_item(alloc, &mut text, item)?;
    }
    Ok(text)
}

/// Adds an item and a line feed.
fn push_item(alloc: Global, text: &mut Octets, item: Item) -> Result<(), OutOfMemory>
    ensures { OnOk result (text.new ≡ text.old ++ (item_text quoting.Challenge item ++ 10 ∷ [])) }
{
    let mut items = ItemList::new(alloc);
    items.push(item)?;
    text.extend(write_items(alloc, &items, Quoting::Challenge)?.bytes())?;
    text.push(b'\n')
}
