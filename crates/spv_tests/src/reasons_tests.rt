//! What no clause says of reasons: that they do not give up.

#[cfg(test)]
mod closing;
#[cfg(test)]
mod examples;
