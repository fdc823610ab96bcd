//! Challenges and credentials of HTTP authentication (RFC 9110 section 11): reading, writing, and
//! the strings and lists that they are made of.
#![tactic(auto)]

mod collected;
mod cuts;
mod elements;
mod error;
mod feed;
mod grammar;
mod groups;
mod items;
mod kept;
mod kinds;
mod names;
mod numbers;
mod octets;
mod plain;
mod position;
mod read;
mod reader;
mod repeats;
mod role_fields;
mod round_trip;
mod runs;
mod sequence;
#[cfg(test)]
mod tests;
mod turns;
mod valid;
mod walker;
mod write;

pub use cuts::{after_first, before, before_first, behind, cut_at, len_before, without_return};
pub use error::GrammarError;
pub use feed::ItemFeed;
pub use grammar::Grammar;
pub use items::{Item, ItemList, OctetsList, Param, ParamList, Quoting, Rest, Role};
pub use names::{has_repeat, same_name, value_of};
pub use numbers::{decimal_of, number_in};
pub use octets::{Octets, OutOfMemory};
pub use plain::{NAME_LIMIT, PASSWORD_LIMIT, is_password, is_plain_name, is_printable};
pub use read::{read_challenges, read_credentials, read_params};
pub use round_trip::reads_what_is_written;
pub use sequence::Sequence;
pub use valid::{is_quotable, is_token, is_token68, valid_items, valid_params};
pub use walker::reach;
pub use write::{write_items, write_params};
