//! The kinds of step of a table, each a small function over its words or its slot.
mod history;
mod lists;
mod turn;
mod value;

pub use history::{Said, commit};
pub use lists::{hear_note, join_views, look_again, split_off, take_note};
pub use turn::{draw_ticket, look_at_serving, pass_on};
pub use value::{give_back, look_at_calls, take_value};
