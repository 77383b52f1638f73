//! What no clause says of courses: that they do not give up.

#[cfg(test)]
mod steps;
