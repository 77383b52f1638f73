// Numbers and fractions as they are written.

ghost use Rattle.std.specs.Prelude.{◌≡◌, ◌<◌, ◌^◌, ◌==◌, IfSome, SomeIff, nat_le, position, unsigned_abs};
ghost use Rattle.std.specs.Char.{digit_value};
ghost use Rattle.std.specs.Str.Parse.{digits_value};
ghost use Rattle.spv_whole.specs.Gcd.{gcd};
ghost use Rattle.spv_listing_values.specs.Reading as spec;

use crate::words::find;
use spv_frac::{Frac, Op};
use spv_logic::Kind;

// The value of a digit or of a letter, and 36 for any other byte.
fn digit_value(byte: u8) -> u8
    ensures { result ≡ digit_value byte }
{
    match byte {
        b'0'..=b'9' => byte - b'0',
        b'A'..=b'Z' => byte - 55,
        b'a'..=b'z' => byte - 87,
        _ => 36,
    }
}

// The number of these digits, where it is below a limit.
fn below(limit: u128, digits: &[u8]) -> Option<u128>
    requires low { 0 < limit }
    ensures value { result ≡ spec.below limit digits.now }
    ensures in_range { IfSome result (λ n. n < limit) }
{
    let mut value = 0u128;
    for digit in digits {
        let next = value
            .checked_mul(10)?
            .checked_add(u128::from(digit_value(*digit)))?;
        if next >= limit {
            return None;
        }
        value = next;
    }
    Some(value)
}

// A number of 32 bits.
pub(crate) fn short(digits: &[u8]) -> Option<u32>
    ensures { result ≡ spec.below (2 ^ 32) digits.now }
{
    let number = below(4294967296, digits)?;
    Some(number as u32)
}

// A number of 64 bits.
pub(crate) fn long(digits: &[u8]) -> Option<u64>
    ensures { result ≡ spec.below (2 ^ 64) digits.now }
{
    let number = below(18446744073709551616, digits)?;
    Some(number as u64)
}

// A number of 8 bits.
pub(crate) fn byte(digits: &[u8]) -> Option<u8>
    ensures { result ≡ spec.below (2 ^ 8) digits.now }
{
    let number = below(256, digits)?;
    Some(number as u8)
}

// A number of 127 bits.
pub(crate) fn wide(digits: &[u8]) -> Option<u128>
    ensures value { result ≡ spec.below (2 ^ 127) digits.now }
    ensures in_range { IfSome result (λ n. n < 2 ^ 127) }
{
    below(170141183460469231731687303715884105728, digits)
}

// Whether the number of these digits is at most that of 128 bits with a sign.
pub(crate) fn is_at_most_wide(digits: &[u8]) -> bool
    ensures { result ≡ nat_le (digits_value 10 digits.now) (2 ^ 127) }
{
    below(170141183460469231731687303715884105729, digits).is_some()
}

// A whole number of 127 bits beside its sign.
fn whole(text: &[u8]) -> Option<i128>
    ensures { SomeIff result (unsigned_abs (spec.whole_of text.now) < 2 ^ 127) (spec.whole_of text.now) }
{
    match text {
        [b'-', digits @ ..] => {
            let number = wide(digits)?;
            Some(-(number as i128))
        }
        _ => {
            let number = wide(text)?;
            Some(number as i128)
        }
    }
}

// Euclid's algorithm.
#[tactic(auto, using(spv_whole::proofs::Gcd::steps))]
fn common_divisor(a: u128, b: u128) -> u128
    ensures { result ≡ gcd a b }
{
    let mut left = a;
    let mut right = b;
    while right != 0 {
        let rest = left % right;
        left = right;
        right = rest;
    }
    left
}

// The place of the first stroke.
fn stroke(text: &[u8]) -> Option<usize>
    ensures { result ≡ position (λ b. b == 47) text.now }
{
    text.iter().position(|b| *b == b'/')
}

// What stands in front of the first stroke.
fn front(text: &[u8]) -> &[u8]
    ensures { result.now ≡ spec.front text.now }
{
    match stroke(text) {
        None => text,
        Some(at) => &text[..at],
    }
}

// The denominator of a fraction, where it fits.
fn denominator(text: &[u8]) -> Option<u128>
    ensures { SomeIff result (spec.denominator_of text.now < 2 ^ 127) (spec.denominator_of text.now) }
{
    match stroke(text) {
        None => Some(1),
        Some(at) => wide(&text[at + 1..]),
    }
}

// A fraction in lowest terms.
pub(crate) fn fraction(text: &[u8]) -> Option<Frac>
    ensures { result ≡ spec.fraction_by text.now }
{
    let num = whole(front(text))?;
    let den = denominator(text)?;
    if den == 0 || common_divisor(num.unsigned_abs(), den) != 1 {
        return None;
    }
    Some(Frac {
        num,
        den: den as i128,
    })
}

static KINDS: [(&[u8], Kind); 5] = [
    (b"EXIT", Kind::Exit),
    (b"ASSERT", Kind::Assert),
    (b"INVARIANT", Kind::Invariant),
    (b"PRESERVED", Kind::Preserved),
    (b"ENTRY", Kind::Entry),
];

static OPERATIONS: [(&[u8], Op); 5] = [
    (b"ADD", Op::Add),
    (b"SUB", Op::Sub),
    (b"MUL", Op::Mul),
    (b"DIV", Op::Div),
    (b"CMP", Op::Cmp),
];

// The kind of annotation that a word names.
pub(crate) fn kind(word: &[u8]) -> Option<Kind>
    ensures { result ≡ spec.named spec.kinds word.now }
{
    find(&KINDS, word)
}

// The operation that a word names.
pub(crate) fn operation(word: &[u8]) -> Option<Op>
    ensures { result ≡ spec.named spec.operations word.now }
{
    find(&OPERATIONS, word)
}
