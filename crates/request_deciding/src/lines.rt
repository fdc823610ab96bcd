//! What a reply says of the authentication.
ghost use Rattle.std.specs.Prelude.{◌≡◌, ◌++◌, ◌∷◌, [], IfOk, OnOk, map};
ghost use Rattle.request_deciding.specs.Lines.{item_line, info_line, verdict_lines, is_admitted};

use auth_decide::{Proof, Verdict};
use auth_grammar::{Item, ItemList, Octets, OutOfMemory, Quoting, Role, write_items, write_params};
use http_wire::{Pair, PairList};
use std::alloc::Global;

/// The line of one item.
fn item_line(alloc: Global, name: &[u8], item: Item) -> Result<Pair, OutOfMemory>
    ensures { IfOk result (λ made. made ≡ item_line name.now item) }
{
    let mut items = ItemList::new(alloc);
    items.push(item)?;
    let value = write_items(alloc, &items, Quoting::Challenge)?;
    let name = Octets::of(alloc, name)?;
    Ok(Pair { name, value })
}

/// One line for each item.
fn put_items(
    alloc: Global,
    lines: &mut PairList,
    name: &[u8],
    items: ItemList,
) -> Result<(), OutOfMemory>
    ensures { OnOk result (lines.new ≡ lines.old ++ map (item_line name.now) items) }
{
    for item in items.into_vec() {
        lines.push(item_line(alloc, name, item)?)?;
    }
    Ok(())
}

fn put_item(alloc: Global, lines: &mut PairList, name: &[u8], item: Item) -> Result<(), OutOfMemory>
    ensures { OnOk result (lines.new ≡ lines.old ++ item_line name.now item ∷ []) }
{
    lines.push(item_line(alloc, name, item)?)?;
    Ok(())
}

/// What the server proves over a body that it sends.
fn info_line(alloc: Global, role: Role, proof: &Proof, body: &[u8]) -> Result<Pair, OutOfMemory>
    ensures { IfOk result (λ made. made ≡ info_line role proof.now body.now) }
{
    let params = proof.info(alloc, body)?;
    let value = write_params(alloc, &params, Quoting::Info)?;
    let name = Octets::of(alloc, role.info_name())?;
    Ok(Pair { name, value })
}

fn put_info(
    alloc: Global,
    lines: &mut PairList,
    role: Role,
    proof: &Proof,
    body: &[u8],
) -> Result<(), OutOfMemory>
    ensures { OnOk result (lines.new ≡ lines.old ++ info_line role proof.now body.now ∷ []) }
{
    lines.push(info_line(alloc, role, proof, body)?)?;
    Ok(())
}

/// Adds what a reply with this body says of the authentication: what the server proves over it, or what it offers.
pub fn put_verdict(
    alloc: Global,
    lines: &mut PairList,
    role: Role,
    verdict: Verdict,
    body: &[u8],
) -> Result<(), OutOfMemory>
    ensures { OnOk result (lines.new ≡ lines.old ++ verdict_lines role verdict body.now) }
{
    match verdict {
        Verdict::Admit { proof, .. } => put_info(alloc, lines, role, &proof, body),
        Verdict::Open { items } => put_items(alloc, lines, role.offer_name(), items),
        Verdict::Challenge { items } => put_items(alloc, lines, role.challenge_name(), items),
        Verdict::Continue { item } => put_item(alloc, lines, role.challenge_name(), item),
        Verdict::Bad { .. } => Ok(()),
    }
}

/// Whether a request with this verdict counts as admitted.
pub fn is_admitted(verdict: &Verdict) -> bool
    ensures { result ≡ is_admitted verdict.now }
{
    match verdict {
        Verdict::Admit { .. } => true,
        _ => false,
    }
}
