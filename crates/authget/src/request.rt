//! The request for a URL.
ghost use Rattle.std.specs.Prelude.{◌≡◌, ◌∷◌, ◌≤◌, [], IfOk, length};
ghost use Rattle.auth_grammar.specs.Writing.{items_text};
ghost use Rattle.authget.specs.Requests.{line_with, lines_with, peer_of, request_for, role_of, target_of, text_with};

use crate::plan::Plan;
use crate::urls::path_of;
use auth_grammar::{Item, ItemList, Octets, OutOfMemory, Quoting, Role, write_items};
use client_core::{OutRequest, Sent};
use http_wire::{Pair, PairList, write_request};
use std::alloc::Global;

const METHOD: &[u8; 3] = b"GET";

impl Plan {
    /// Whose challenges are answered.
    pub(crate) fn role(&self) -> Role
        ensures { result ≡ role_of self.now.proxy }
    {
        match &self.proxy {
            Some(_) => Role::Proxy,
            None => Role::Origin,
        }
    }

    /// What is dialled.
    pub(crate) fn peer(&self) -> &[u8]
        ensures { result.now ≡ peer_of self.now }
    {
        match &self.proxy {
            Some(proxy) => proxy.bytes(),
            None => self.authority.bytes(),
        }
    }

    /// The target of the request for a URL: a proxy is asked for all of it.
    fn target<'u>(&self, url: &'u [u8]) -> &'u [u8]
        ensures { result.now ≡ target_of self.now.proxy url.now }
    {
        match &self.proxy {
            Some(_) => url,
            None => path_of(url),
        }
    }

    /// The request for a URL.
    pub(crate) fn request(&self, alloc: Global, url: &[u8]) -> Result<OutRequest, OutOfMemory>
        ensures { IfOk result (λ request. request ≡ request_for self.now url.now) }
    {
        Ok(OutRequest {
            method: Octets::of(alloc, METHOD)?,
            authority: self.authority.copy()?,
            target: Octets::of(alloc, self.target(url))?,
            body: Octets::new(alloc),
        })
    }

    /// The text of the request for a URL with these credentials.
    pub(crate) fn text(&self, alloc: Global, url: &[u8], sent: &Sent) -> Result<Octets, OutOfMemory>
        ensures { IfOk result (λ text. text ≡ text_with self.now url.now sent.now) }
    {
        let lines = lines_with(alloc, self.role(), sent)?;
        let (target, host) = (self.target(url), self.authority.bytes());
        write_request(alloc, METHOD, target, host, &lines, b"")
    }
}

/// The item as the value of a field.
fn item_text(alloc: Global, item: &Item) -> Result<Octets, OutOfMemory>
    ensures { IfOk result (λ text. text ≡ items_text Quoting.Credentials (item.now ∷ [])) }
{
    let mut items = ItemList::new(alloc);
    items.push(item.clone()?)?;
    write_items(alloc, &items, Quoting::Credentials)
}

/// The line with these credentials.
fn line_with(alloc: Global, role: Role, item: &Item) -> Result<PairList, OutOfMemory>
    ensures { IfOk result (λ lines. lines ≡ line_with role item.now) }
{
    let mut lines = PairList::new(alloc);
    lines.push(Pair {
        name: Octets::of(alloc, role.credentials_name())?,
        value: item_text(alloc, item)?,
    })?;
    Ok(lines)
}

/// The line with these credentials, if there are any.
fn lines_with(alloc: Global, role: Role, sent: &Sent) -> Result<PairList, OutOfMemory>
    ensures { IfOk result (λ lines. lines ≡ lines_with role sent.now) }
{
    match sent {
        Sent::Nothing => Ok(PairList::new(alloc)),
        Sent::Digest(item)
        | Sent::ScramFirst(item)
        | Sent::ScramFinal(item)
        | Sent::ScramAgain(item) => line_with(alloc, role, item),
    }
}
