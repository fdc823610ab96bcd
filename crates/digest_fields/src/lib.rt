//! The fields of HTTP Digest (RFC 7616): what the parameters of a challenge, of credentials and of an
//! `Authentication-Info` mean, which of them are refused, and how they are written.
#![tactic(auto)]

mod challenge;
mod credentials;
mod extended;
mod field;
mod info;
mod kind;
mod name;
mod nc;
mod qop;
mod realm;
mod write;

pub use challenge::DigestChallenge;
pub use credentials::DigestCredentials;
pub use field::{FieldError, FieldName};
pub use info::DigestInfo;
pub use kind::Kind;
pub use name::UserName;
pub use nc::Nc;

#[cfg(test)]
mod tests;
