//! Tests of typed and framed programs.

#[cfg(test)]
mod texts;
