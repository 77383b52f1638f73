//! Sums of multiples of facts, as the checker of proofs makes them: each number in its turn, up to the
//! first that does not fit.

mod adding;
mod difference;
pub mod fault;
mod measure;
mod numbers;
mod partial;
pub mod reading;
mod refuting;

pub use fault::SumFault;
pub use numbers::is_number;
pub use reading::Claim;
pub use refuting::refutes;
