//! Elements of a list.
ghost use Rattle.std.specs.Prelude.{◌≡◌, [], IfOk, IsSome, is_some, unwrap_or};
ghost use Rattle.auth_grammar.specs.Positions.{ending};

use crate::items::Param;
use crate::kept::Kept;
use crate::octets::{Octets, OutOfMemory};
use crate::position::Position;
use std::alloc::Global;

/// What stands between two commas.
#[derive(Drop)]
pub enum Element {
    Blank,
    Scheme(Octets),
    /// a scheme and a token68
    SchemeToken68(Octets, Octets),
    /// a scheme, and a parameter whose name stands at that place
    SchemeParam(Octets, u32, Param),
    /// a parameter whose name stands at that place
    Further(u32, Param),
}

/// The element that ends at this position.
pub fn ended(alloc: Global, kept: Kept, position: Position) -> Result<Element, OutOfMemory>
    requires { IsSome (ending position kept) }
    ensures { IfOk result (λ element. ending position kept ≡ Some element) }
{
    let Kept {
        scheme,
        word,
        at,
        value,
    } = kept;
    match position {
        Position::Start => Ok(Element::Blank),
        Position::Word
        | Position::WordSpace
        | Position::WordWhite
        | Position::Scheme
        | Position::SchemeSpace
        | Position::SchemeWhite => Ok(Element::Scheme(word)),
        Position::SecondEquals | Position::SecondEqualsWhite => {
            let mut token68 = word;
            token68.push(b'=')?;
            Ok(Element::SchemeToken68(first(alloc, scheme), token68))
        }
        Position::Second
        | Position::SecondWhite
        | Position::Token68
        | Position::Padding
        | Position::Token68White => Ok(Element::SchemeToken68(first(alloc, scheme), word)),
        _ => match scheme {
            Some(scheme) => Ok(Element::SchemeParam(scheme, at, Param { name: word, value })),
            None => Ok(Element::Further(at, Param { name: word, value })),
        },
    }
}

/// The scheme before a second word.
fn first(alloc: Global, scheme: Option<Octets>) -> Octets
    ensures { result ≡ unwrap_or scheme [] }
{
    match scheme {
        Some(scheme) => scheme,
        None => Octets::new(alloc),
    }
}

/// Whether an element may end at this position.
pub fn may_end(position: Position) -> bool
    ensures { (w : Kept) → result ≡ is_some (ending position w) }
{
    !matches!(
        position,
        Position::Name
            | Position::NameWhite
            | Position::Equals
            | Position::Quoted
            | Position::Escaped
    )
}
