//! Which questions of a search have a value by another term: as a negation of it, or as an equation of the sides of an order.

mod equations;
mod following;
mod lists;
mod negations;
mod orders;

pub use following::{Followers, find_followers};
