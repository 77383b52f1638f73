//! Facts that are found among those that are known: an order of the sides of an equation, the truth of a term, and what contradicts a new fact.

mod clashing;
mod ordering;
mod saying;

pub use clashing::{Clash, find_clash};
pub use ordering::{find_order, order_of, order_part, orders};
pub use saying::find_fact;
