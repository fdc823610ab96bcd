//! How many calls a shard has answered, and how.

/// The numbers of all calls, of the nonces issued, and of the uses answered Fresh and Repeated.
#[derive(Clone, Copy, Debug, PartialEq, Eq)]
pub struct Totals {
    pub calls: u64,
    pub issued: u64,
    pub admitted: u64,
    pub repeated: u64,
}
