//! Conditions in progress: what is given in front of several of them stands once.

mod listing;
mod pending;
mod queues;
mod replacing;
mod staying;
mod steps;
mod substituting;

pub use pending::Pending;
