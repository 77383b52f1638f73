//! What is known on a path of a search: the values that facts give, and what follows from them by evaluation.

mod answering;
mod facts;
mod following;
mod laws;
mod lists;

pub use facts::{Known, numbers};
pub use following::{Following, next};
pub use laws::law_known;
pub use lists::Listed;
