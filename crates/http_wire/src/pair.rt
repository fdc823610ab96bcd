//! Field lines that are written or handed out.
use auth_grammar::{Octets, Sequence};

/// A field line: a name and a value (RFC 9110 section 5).
#[derive(Drop)]
pub struct Pair {
    pub name: Octets,
    pub value: Octets,
}

/// Field lines, in order.
pub type PairList = Sequence<Pair>;
