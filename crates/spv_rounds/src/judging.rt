//! Which verdict on a condition under rules what was found makes.

mod calls;
mod counting;
mod ended;
mod surviving;
mod turning;

pub use turning::turn_by;
