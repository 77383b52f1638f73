//! Tests of typed formula texts.

#[cfg(test)]
mod formulas;
