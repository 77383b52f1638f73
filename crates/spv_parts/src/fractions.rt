// Fractions, read and printed as numerator/denominator.

use spv_frac::{Frac, TooWide};
use std::alloc::{AllocError, Global};
use std::cmp::Ordering;

// The number of a row of digits, and what is no digit counts as 0.
fn natural(digits: &str) -> Result<Frac, TooWide> {
    let mut number = Frac::whole(0);
    for byte in digits.as_bytes() {
        let digit = if byte.is_ascii_digit() {
            *byte - b'0'
        } else {
            0
        };
        number = number
            .mul(Frac::whole(10))?
            .add(Frac::whole(i64::from(digit)))?;
    }
    Ok(number)
}

// The fraction that a text spells.
fn fraction(text: &str) -> Result<Frac, TooWide> {
    let (num, den) = text.split_once('/').unwrap_or((text, "1"));
    let den = natural(den)?;
    let num = match num.strip_prefix("-") {
        Some(digits) => natural(digits)?.neg(),
        None => natural(num)?,
    };
    quotient(num, den)
}

// A quotient, where 0 stands for one by 0.
fn quotient(a: Frac, b: Frac) -> Result<Frac, TooWide> {
    if b.num == 0 {
        return Ok(Frac::whole(0));
    }
    a.div(b)
}

// The sign of a comparison.
fn compared(a: Frac, b: Frac) -> Result<Frac, TooWide> {
    let order = match a.cmp(b)? {
        Ordering::Less => -1,
        Ordering::Equal => 0,
        Ordering::Greater => 1,
    };
    Ok(Frac::whole(order))
}

// What an operation answers.
fn result(word: &str, a: &str, b: &str) -> Result<Frac, TooWide> {
    let a = fraction(a)?;
    let b = fraction(b)?;
    if word == "add" {
        return a.add(b);
    }
    if word == "sub" {
        return a.sub(b);
    }
    if word == "mul" {
        return a.mul(b);
    }
    if word == "div" {
        return quotient(a, b);
    }
    compared(a, b)
}

/// Adds what an operation answers to the two fractions of a line, with its sign, or that it is too wide.
pub fn show(alloc: Global, word: &str, rest: &str, out: &mut Vec<u8>) -> Result<(), AllocError> {
    let (a, b) = rest.split_once(' ').unwrap_or((rest, "1"));
    let line = match result(word, a, b) {
        Ok(frac) => {
            let Frac { num, den } = frac;
            let sign = frac.sign();
            format!(in alloc; "{num}/{den} sign {sign}")?
        }
        Err(TooWide) => String::from_str(alloc, "too wide")?,
    };
    out.extend_from_slice(line.as_str().as_bytes())
}
