//! Tests of what is read of texts, by calls that the command does not make, and of the tokens of trees.

#[cfg(test)]
mod faults;
#[cfg(test)]
mod names;
#[cfg(test)]
mod shapes;
#[cfg(test)]
mod texts;
#[cfg(test)]
mod tokens;
