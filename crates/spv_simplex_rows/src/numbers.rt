// Numbers of a line.

use spv_frac::Frac;
use std::alloc::{AllocError, Global};

/// The whole numbers of a line, as far as its words are some.
pub fn read(alloc: Global, line: &str) -> Result<Vec<i64>, AllocError> {
    let mut numbers = Vec::new(alloc);
    for word in line.split_whitespace() {
        match word.parse::<i64>() {
            Ok(number) => numbers.push(number)?,
            Err(_) => return Ok(numbers),
        }
    }
    Ok(numbers)
}

/// The fraction of two whole numbers.
pub fn fraction(numerator: i64, denominator: i64) -> Option<Frac> {
    let divisor = Frac::whole(denominator);
    if divisor.num == 0 {
        return None;
    }
    Frac::whole(numerator).div(divisor).ok()
}
