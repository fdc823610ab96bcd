//! A client, a server and its nonce table, with whatever is lost, repeated or reordered between them: a made request is
//! admitted at its first delivery where its nonce is live and its count in the window, and never again.
#![tactic(auto)]

mod deciding;
mod drilling;
mod error;
mod event;
mod generated;
mod generator;
mod giving;
mod hearing;
mod laws;
mod line;
mod requests;
mod site;
mod step;
mod tally;
#[cfg(test)]
mod tests;
mod world;

pub use drilling::{MOST_STEPS, drill_line};
pub use error::DrillError;
pub use event::DrillEvent;
pub use laws::{admits_each_once, admits_first};
pub use step::drill_step;
pub use tally::Tally;
pub use world::World;
