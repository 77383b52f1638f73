//! What no clause says of the terms that are written and made: that the calls do not give up.

#[cfg(test)]
mod made;
#[cfg(test)]
mod written;
