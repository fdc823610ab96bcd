//! The store of secrets: a text that holds no password, and look-ups in it.
#![tactic(auto)]

mod changes;
mod entries;
mod entry;
mod error;
mod htdigest;
mod keys_text;
mod kind;
mod laws;
mod line;
mod round_trip;
mod store;
mod text;
mod value;
mod version;

pub use entry::{Entry, Secret};
pub use error::{LineFault, StoreError};
pub use kind::SecretKind;
pub use laws::{changes_what_is_named, disables_what_is_named, has_one_first_fault};
pub use round_trip::reads_what_is_written;
pub use store::Store;

#[cfg(test)]
mod tests;
