//! Places of members and items in a JSON text: the byte offset of a member's name or of an item, its line and its column.
//!
//! [`places_of`] finds what many paths lead to in one pass, and [`chosen_places`] takes for each subject the place of the path that
//! it prefers. See the crate's `README.md`.
#![tactic(auto)]

mod choice;
mod part;
mod path;
mod place;
mod search;
mod settled;
mod step_at;
mod taken;

pub use choice::chosen_places;
pub use path::{Path, Step};
pub use place::Place;
pub use search::places_of;
