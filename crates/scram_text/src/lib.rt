//! The messages of SCRAM (RFC 5802 sections 5.1 and 7) and the items that carry them (RFC 7804 section 5): reading and writing.
#![tactic(auto)]

mod attribute;
mod base64_places;
mod base64_texts;
mod bytes;
mod client_final;
mod client_final_parts;
mod client_final_reading;
mod client_first;
mod client_first_parts;
mod client_first_reading;
mod counts;
mod error;
mod flag;
mod items;
mod limits;
mod names;
mod parts;
mod reauth;
mod runs;
mod server_final;
mod server_final_reading;
mod server_first;
mod server_first_parts;
mod server_first_reading;
#[cfg(test)]
mod tests;

pub use base64_texts::{DIGEST_LENGTH, push_base64, read_base64};
pub use client_final::ClientFinal;
pub use client_first::ClientFirst;
pub use error::{ScramError, ScramField};
pub use flag::Flag;
pub use items::{SCRAM_SCHEME, data_param, scram_item};
pub use limits::{BARE_LIMIT, FIRST_LIMIT, NONCE_LIMIT};
pub use reauth::{ReauthNonce, SR_LENGTH};
pub use runs::is_symbol;
pub use server_final::{ServerError, ServerFinal};
pub use server_first::ServerFirst;
