//! Workers that listen on an address.
ghost use Rattle.std.specs.Prelude.{◌≤◌};
ghost use Rattle.authd.specs.declared.crew.TheConstants.{MOST_WORKERS};

use crate::command::Place;
use auth_grammar::Octets;

/// The most workers that listen.
pub const MOST_WORKERS: u32 = 64;

/// The most connections that each worker serves.
pub(crate) const MOST_CONNECTIONS: u32 = 1_000_000;

/// What `listen` serves, and by whom: a site, the address to listen on, how many workers there are, and how many
/// connections each of them serves.
#[derive(Clone, Copy)]
pub(crate) struct Listening<'w> {
    pub(crate) place: Place<'w>,
    pub(crate) address: &'w str,
    pub(crate) workers: u32,
    pub(crate) connections: u32,
    ghost some: { 1 ≤ workers },
    ghost few: { workers ≤ MOST_WORKERS },
}

/// What `proxy` serves by, and by whom: a store and spaces, the address to listen on, how many workers there are, and
/// how many connections each of them serves.
#[derive(Clone, Copy)]
pub(crate) struct Proxying<'w> {
    pub(crate) store: &'w [u8],
    pub(crate) spaces: &'w [u8],
    pub(crate) address: &'w str,
    pub(crate) workers: u32,
    pub(crate) connections: u32,
    ghost some: { 1 ≤ workers },
    ghost few: { workers ≤ MOST_WORKERS },
}

/// What `main` makes for `listen` and for `proxy`: which of them, how many workers, and the address on which they
/// listen.
#[derive(Drop)]
pub struct Crew {
    pub proxy: bool,
    pub workers: u32,
    pub address: Octets,
    ghost some: { 1 ≤ workers },
    ghost few: { workers ≤ MOST_WORKERS },
}
