//! What the words of the command line ask for.
use auth_grammar::{Octets, OctetsList};

/// What the words of the command line ask for.
#[derive(Drop)]
pub(crate) struct Plan {
    /// The proxy that is asked, a host and a port.
    pub proxy: Option<Octets>,
    pub name: Octets,
    /// The host of the URLs, and its port where one is spelled.
    pub authority: Octets,
    pub urls: OctetsList,
}
