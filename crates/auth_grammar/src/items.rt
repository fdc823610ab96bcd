//! Items and parameters.
use crate::octets::{Octets, OutOfMemory};
use crate::sequence::Sequence;
use std::alloc::Global;

/// Whose authentication it is: a server's own (`WWW-Authenticate`, RFC 9110 section 11.6) or a
/// proxy's (`Proxy-Authenticate`, section 11.7).
#[derive(Debug, Drop, Clone, Copy, PartialEq, Eq)]
pub enum Role {
    /// A server's own.
    Origin,
    /// A proxy's.
    Proxy,
}

/// A parameter. Its value stands without quotes and without the backslashes of escapes.
#[derive(Drop, Clone, PartialEq)]
pub struct Param {
    pub name: Octets,
    pub value: Octets,
}

impl Param {
    ghost use Rattle.std.specs.Prelude.{◌≡◌, IfOk};
    ghost use Rattle.auth_grammar.specs.Params.{param};

    /// The parameter of a copy of this name and this value.
    pub fn of(alloc: Global, name: &[u8], value: &[u8]) -> Result<Param, OutOfMemory>
        ensures { IfOk result (λ made. made ≡ param name.now value.now) }
    {
        Ok(Param {
            name: Octets::of(alloc, name)?,
            value: Octets::of(alloc, value)?,
        })
    }
}

/// Strings of bytes, in order.
pub type OctetsList = Sequence<Octets>;

/// Parameters, in order.
pub type ParamList = Sequence<Param>;

/// Items, in order.
pub type ItemList = Sequence<Item>;

/// What stands behind a scheme (RFC 9110 section 11.2).
#[derive(Drop, Clone)]
pub enum Rest {
    /// Nothing.
    Empty,
    /// Letters, digits and `-._~+/`, then any number of `=`.
    Token68(Octets),
    /// Parameters, with a comma between each two.
    Params(ParamList),
}

/// A challenge or credentials: a scheme and what belongs to it.
#[derive(Drop, Clone)]
pub struct Item {
    pub scheme: Octets,
    pub rest: Rest,
}

/// In which kind of field a text stands. It decides which values are written without quotes.
#[derive(Debug, Drop, Clone, Copy, PartialEq, Eq)]
pub enum Quoting {
    /// `WWW-Authenticate` or `Proxy-Authenticate` (RFC 7616 section 3.3).
    Challenge,
    /// `Authorization` or `Proxy-Authorization` (RFC 7616 section 3.4).
    Credentials,
    /// `Authentication-Info` or `Proxy-Authentication-Info` (RFC 7616 section 3.5).
    Info,
}
