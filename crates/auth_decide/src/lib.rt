//! The decision for one request: what it asks of a source of random words and of the nonce table, and whether the
//! request is admitted (RFC 9110 section 11, RFC 7616, RFC 7804).
//!
//! A `Decision` makes no call itself. It goes from stage to stage by the answers that its caller hands in.
#![tactic(auto)]

mod asks;
mod basis;
mod candidate;
mod challenges;
mod credentials;
mod decision;
mod info;
mod paths;
mod response;
mod scram_exchange;
mod scram_message;
mod scram_reading;
mod scram_stages;
mod site;
mod stages;
mod verdict;
mod verified;

pub use basis::ResponseBasis;
pub use candidate::Candidate;
pub use challenges::Stale;
pub use credentials::{CredentialsField, Presented, RequestCredentials};
pub use decision::{Decision, asks_few};
pub use info::Proof;
pub use paths::{correspond, path_of, without_authority};
pub use scram_exchange::{Attempt, ExchangeParts, NewExchange, ScramUser};
pub use scram_message::{Again, FinalMessage, FirstMessage, ScramMessage};
pub use site::Site;
pub use stages::{NEXT_NONCE_USES, Purpose, Stage};
pub use verdict::{Ask, Verdict, Why};
pub use verified::Verified;
