//! What stays from one request to the next.
use auth_decide::Site;

/// A site, beside a nonce table. Contracts alone have it.
#[derive(Drop)]
pub struct Server {
    /// The site: its users, its protection spaces and the root of its files.
    pub site: Site,
    /// How many shards the table has.
    pub shards: u16,
}
