//! Who is admitted: laws of the decision, of the nonce table and of what a request's lines say.
//!
//! They speak of definitions, and the functions do nothing.
#![tactic(auto)]

mod laws;

pub use laws::{admits_again, admits_by_try, admits_exactly, admits_no_other, reads_one_way};
