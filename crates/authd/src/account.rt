//! Whose secret is to be set.
ghost use Rattle.std.specs.Prelude.{◌≤◌};

/// Whose secret is to be set: the name of the file of the store, a name, a realm, a kind and an iteration count.
#[derive(Clone, Copy)]
pub(crate) struct Account<'w> {
    pub(crate) store: &'w [u8],
    pub(crate) name: &'w [u8],
    pub(crate) realm: &'w [u8],
    pub(crate) kind: &'w [u8],
    pub(crate) rounds: u32,
    ghost some: { 1 ≤ rounds },
}
