//! Protection spaces (RFC 9110 section 11.5): which part of a site asks for which authentication.
#![tactic(auto)]

mod error;
mod kinds;
mod lines;
mod look_up;
mod space;
mod spaces;
mod texts;

pub use error::SpacesError;
pub use space::{Mode, Offer, OfferKind, OfferList, Space};
pub use spaces::Spaces;
pub use texts::reads_one_way;

#[cfg(test)]
mod tests;
