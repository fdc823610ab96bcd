//! The counts of one nonce that were used, so that none is used twice: a window that slides up to
//! the greatest count. It takes no memory, and a count costs the same whatever came before.
//!
//! A client numbers its requests (`nc`, RFC 7616 section 3.4), and they may come in another order
//! than they were numbered. A count is new where the window has no mark of it. One that lies too far
//! below the greatest can't be told new from used, and is refused, as in the window of RFC 4303
//! section 3.4.3.
#![tactic(auto)]

mod laws;
mod window;

pub use laws::answers_follow_from_counts;
pub use window::{Admit, WIDTH, Window};
