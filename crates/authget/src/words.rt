//! The words of the command line.
ghost use Rattle.std.specs.Prelude.{◌≡◌, ◌&&◌, IfOk, codes, drop, filter, map, nat_eq, nat_le, nat_lt, string_bytes};
ghost use Rattle.std.specs.List.{list_all, starts_with};
ghost use Rattle.authget.specs.Words.{are_urls, asked_for, asked_plainly, is_of, is_option, is_plain, proxy_in};

use crate::plan::Plan;
use crate::urls::{authority_of, is_url};
use auth_grammar::{Octets, OctetsList, OutOfMemory};
use auth_io::is_address;
use std::alloc::Global;

/// The most URLs that are fetched.
const URL_LIMIT: usize = 16;

/// What an option with a proxy begins with.
const PROXY: &[u8; 8] = b"--proxy=";

/// An option begins with `-`.
fn is_option(word: &[u8]) -> bool
    ensures { result ≡ is_option word.now }
{
    match word.first() {
        Some(first) => *first == b'-',
        None => false,
    }
}

/// The options among the words, and the others.
fn parted(alloc: Global, words: &[String]) -> Result<(OctetsList, OctetsList), OutOfMemory>
    ensures options { IfOk result (λ parts. parts.0 ≡ filter is_option (map string_bytes words.now)) }
    ensures plain { IfOk result (λ parts. parts.1 ≡ filter is_plain (map string_bytes words.now)) }
{
    let mut options = OctetsList::new(alloc);
    let mut plain = OctetsList::new(alloc);
    for word in words {
        let text = Octets::of(alloc, word.as_bytes())?;
        if is_option(text.bytes()) {
            options.push(text)?;
        } else {
            plain.push(text)?;
        }
    }
    Ok((options, plain))
}

/// Whether the word begins as an option with a proxy does.
fn names_proxy(option: &[u8]) -> bool
    ensures { result ≡ starts_with nat_eq option.now (codes "--proxy=") }
{
    option.starts_with(PROXY)
}

/// What stands behind that beginning.
fn behind_name(option: &[u8]) -> &[u8]
    ensures { result.now ≡ drop 8 option.now }
{
    &option[PROXY.len().min(option.len())..]
}

/// The proxy that an option says.
fn proxy_in(alloc: Global, option: &[u8]) -> Result<Option<Octets>, OutOfMemory>
    ensures { IfOk result (λ proxy. proxy ≡ proxy_in option.now) }
{
    let address = behind_name(option);
    if !names_proxy(option) || !is_address(address) {
        return Ok(None);
    }
    Ok(Some(Octets::of(alloc, address)?))
}

/// Whether a word is a URL of that authority.
fn is_of(authority: &[u8], url: &[u8]) -> bool
    ensures { result ≡ is_of authority.now url.now }
{
    is_url(url) && authority_of(url) == authority
}

fn are_of(authority: &[u8], urls: &[Octets]) -> bool
    ensures { result ≡ list_all (is_of authority.now) urls.now }
{
    urls.iter().all(|url| is_of(authority, url.bytes()))
}

fn is_number_of_urls(count: usize) -> bool
    ensures { result ≡ (nat_lt 0 count && nat_le count 16) }
{
    0 < count && count <= URL_LIMIT
}

/// Whether the words are 1 to 16 URLs of that authority.
fn are_urls(authority: &[u8], urls: &OctetsList) -> bool
    ensures { result ≡ are_urls authority.now urls.now }
{
    is_number_of_urls(urls.len()) && are_of(authority, urls.as_slice())
}

/// What a name and URLs ask for.
fn asked_plainly(
    alloc: Global,
    proxy: Option<Octets>,
    words: OctetsList,
) -> Result<Option<Plan>, OutOfMemory>
    ensures { IfOk result (λ plan. plan ≡ asked_plainly proxy words) }
{
    let mut urls = words.into_vec();
    if urls.len() < 2 {
        return Ok(None);
    }
    let name = urls.remove(0);
    let authority = Octets::of(alloc, authority_of(urls[0].bytes()))?;
    let urls = OctetsList::from_vec(urls);
    if name.len() == 0 || !are_urls(authority.bytes(), &urls) {
        return Ok(None);
    }
    Ok(Some(Plan {
        proxy,
        name,
        authority,
        urls,
    }))
}

/// What the words ask for, or None where they are none that the program knows.
pub(crate) fn asked_for(alloc: Global, words: &[String]) -> Result<Option<Plan>, OutOfMemory>
    ensures { IfOk result (λ plan. plan ≡ asked_for (map string_bytes words.now)) }
{
    let (options, plain) = parted(alloc, words)?;
    match options.as_slice() {
        [] => asked_plainly(alloc, None, plain),
        [option] => match proxy_in(alloc, option.bytes())? {
            Some(proxy) => asked_plainly(alloc, Some(proxy), plain),
            None => Ok(None),
        },
        _ => Ok(None),
    }
}
