// Numerals as they are written.

ghost use Rattle.std.specs.Prelude.{◌≡◌, ◌<◌, ◌^◌, ◌&&◌, IfSome, SomeIff, if◌then◌else◌, Some, None, unsigned_abs};
ghost use Rattle.std.specs.Char.{digit_value};
ghost use Rattle.std.specs.Fmt.{signed_decimal};
ghost use Rattle.std.specs.Option.{option_map};
ghost use Rattle.std.specs.Str.{bytes_eq};
ghost use Rattle.spv_logic.specs.declared.operators.Head.TheVariants as head;
ghost use Rattle.spv_listing_values.specs.Reading.{below, whole_of};
ghost use Rattle.spv_rechecking.specs.written_terms.Standing as spec;

use crate::written_terms::words::is_same;
use itoa::Buffer;
use spv_term::Head;

// The value of a digit or of a letter, and 36 for any other byte.
fn digit_value(byte: u8) -> u8
    ensures { result ≡ digit_value byte }
{
    match byte {
        b'0'..=b'9' => byte - b'0',
        b'A'..=b'Z' => byte - 55,
        b'a'..=b'z' => byte - 87,
        _ => 36,
    }
}

// The number of these digits, where it is below a limit.
fn below(limit: u128, digits: &[u8]) -> Option<u128>
    requires low { 0 < limit }
    ensures value { result ≡ below limit digits.now }
    ensures in_range { IfSome result (λ n. n < limit) }
{
    let mut value = 0u128;
    for digit in digits {
        let next = value
            .checked_mul(10)?
            .checked_add(u128::from(digit_value(*digit)))?;
        if next >= limit {
            return None;
        }
        value = next;
    }
    Some(value)
}

// A number of 127 bits.
fn wide(digits: &[u8]) -> Option<u128>
    ensures value { result ≡ below (2 ^ 127) digits.now }
    ensures in_range { IfSome result (λ n. n < 2 ^ 127) }
{
    below(170141183460469231731687303715884105728, digits)
}

// A whole number of 127 bits beside its sign.
fn whole(text: &[u8]) -> Option<i128>
    ensures { SomeIff result (unsigned_abs (whole_of text.now) < 2 ^ 127) (whole_of text.now) }
{
    match text {
        [b'-', digits @ ..] => {
            let number = wide(digits)?;
            Some(-(number as i128))
        }
        _ => {
            let number = wide(text)?;
            Some(number as i128)
        }
    }
}

// Whether a word is that of a number.
fn is_printed(number: i128, word: &[u8]) -> bool
    ensures { result ≡ bytes_eq (signed_decimal number) word.now }
{
    let mut buffer = Buffer::new();
    is_same(buffer.format(number).as_bytes(), word)
}

// The numeral that is written so.
pub(crate) fn numeral_for(word: &[u8]) -> Option<Head>
    ensures { result ≡ spec.numeral_for word.now }
{
    let number = whole(word)?;
    if is_printed(number, word) {
        return Some(Head::Num(number));
    }
    None
}
