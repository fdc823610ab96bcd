//! One protection space.
use auth_grammar::{Octets, Sequence};
use auth_hash::Algorithm;

/// Whether a space asks for credentials.
#[derive(Debug, Drop, Clone, Copy, PartialEq, Eq)]
pub enum Mode {
    /// It asks for none.
    Open,
    /// It offers to take them (RFC 8053 section 3).
    Optional,
    /// It admits nobody without them.
    Required,
}

/// A way to authenticate.
#[derive(Debug, Drop, Clone, Copy, PartialEq, Eq)]
pub enum OfferKind {
    /// Digest by this hash, where `session` by its session variant (RFC 7616 section 3.4.2).
    Digest { alg: Algorithm, session: bool },
    /// SCRAM-SHA-256 (RFC 7804, RFC 7677).
    ScramSha256,
}

/// An offer of a space. `auth_int` says that a response over the body is offered too, `userhash` that names
/// may come hashed (RFC 7616 section 3.4.4). In a space both are false beside `ScramSha256`.
#[derive(Debug, Drop, Clone, Copy, PartialEq, Eq)]
pub struct Offer {
    pub kind: OfferKind,
    pub auth_int: bool,
    pub userhash: bool,
}

pub type OfferList = Sequence<Offer>;

/// A protection space: the paths that its prefix holds by whole segments. Spaces with one realm have one
/// number, the place from 0 of the first line with that realm. An open space has no offers, an empty realm
/// and the number of its own place.
#[derive(Drop)]
pub struct Space {
    pub prefix: Octets,
    pub mode: Mode,
    pub offers: OfferList,
    pub realm: Octets,
    pub number: u32,
}
