//! What stands at the front of a text.
ghost use Rattle.std.specs.Prelude.{◌≡◌, ◌<◌, ◌≤◌, Some, None, IfSome, if◌then◌else◌, length, nat_le, take};
ghost use Rattle.std.specs.Char.{is_ascii_alphanumeric, is_ascii_digit};
ghost use Rattle.std.specs.List.{prefix_len};
ghost use Rattle.std.specs.Map.{lookup};
ghost use Rattle.std.specs.Str.{bytes_eq};
ghost use Rattle.spv_lexer.specs.Spelling.{short_signs};
ghost use Rattle.spv_lexer.specs.Front.{through as bytes_through, comment as comment_of, decimal as decimal_of, longest_sign as longest_sign_of, front as front_of};
ghost use Rattle.spv_lexer.specs.Seen.{front_seen, parenthesis_or_comment, EndsLines};

use crate::signs::long_sign;
use spv_tree::tokens::{Numeral, Sign};

/// What stands at the front of a text. A length is a number of bytes.
#[derive(Clone, Copy)]
pub(crate) enum Front {
    /// A line feed.
    LineFeed,
    /// Another blank.
    Blank,
    /// A whole comment, with its length.
    Comment(usize),
    /// A word or a name: a row of letters and digits.
    Letters,
    /// A number: a row of digits.
    Digits,
    /// A sign of one byte.
    ShortSign(Sign),
    /// A sign of two bytes.
    LongSign(Sign),
    /// A byte that begins nothing.
    BadByte,
    /// A comment without an end.
    OpenComment,
}

/// How many letters and digits stand at the front.
pub(crate) fn letters(text: &[u8]) -> usize
    ensures { result ≡ prefix_len is_ascii_alphanumeric text.now }
{
    for (len, byte) in text.iter().enumerate() {
        if !byte.is_ascii_alphanumeric() {
            return len;
        }
    }
    text.len()
}

/// How many digits stand at the front.
pub(crate) fn digits(text: &[u8]) -> usize
    ensures { result ≡ prefix_len is_ascii_digit text.now }
{
    for (len, byte) in text.iter().enumerate() {
        if !byte.is_ascii_digit() {
            return len;
        }
    }
    text.len()
}

/// How many bytes there are to the end of the first `closing` sign.
fn through(text: &[u8], closing: &[u8]) -> Option<usize>
    ensures end { result ≡ bytes_through closing.now text.now }
    ensures within { IfSome result (λ len. len ≤ length text.now) }
{
    for at in 0..text.len() {
        if text[at..].starts_with(closing) {
            return Some(at + closing.len());
        }
    }
    None
}

/// The comment that begins with the first `opening` bytes.
fn comment(text: &[u8], opening: &[u8], closing: &[u8]) -> Front
    requires { length opening.now ≤ length text.now }
    ensures front { front_seen text.now result ≡ comment_of opening.now closing.now text.now }
    ensures lines { EndsLines text.now result }
{
    match through(&text[opening.len()..], closing) {
        Some(len) => Front::Comment(opening.len() + len),
        None => Front::OpenComment,
    }
}

/// The number that a row of digits spells, if a `Numeral` has it.
pub(crate) fn decimal(digits: &[u8]) -> Option<Numeral>
    ensures { let n = decimal_of digits.now in
        result ≡ (if nat_le n 9223372036854775807 then Some n else None) }
{
    let mut value = 0u64;
    for digit in digits {
        value = value
            .checked_mul(10)?
            .checked_add(u64::from(digit.saturating_sub(b'0')))?;
    }
    let value = i64::try_from(value).ok()?;
    Some(Numeral::new(value))
}

/// The longest sign at the front, where `short` is the sign of one byte.
fn longest_sign(text: &[u8], short: Sign) -> Front
    requires { lookup (bytes_eq (take 1 text.now)) short_signs ≡ Some short }
    ensures front { front_seen text.now result ≡ longest_sign_of text.now }
    ensures lines { EndsLines text.now result }
{
    match long_sign(text) {
        Some(long) => Front::LongSign(long),
        None => Front::ShortSign(short),
    }
}

/// A left parenthesis, or the comment that begins with it.
fn parenthesis(text: &[u8]) -> Front
    ensures front { front_seen text.now result ≡ parenthesis_or_comment text.now }
    ensures lines { EndsLines text.now result }
{
    if text.starts_with(b"(*") {
        return comment(text, b"(*", b"*)");
    }
    Front::ShortSign(Sign::OpenParenthesis)
}

/// What stands at the front of a text that is not empty.
pub(crate) fn read_front(text: &[u8]) -> Front
    requires { 0 < length text.now }
    ensures front { front_seen text.now result ≡ front_of text.now }
    ensures lines { EndsLines text.now result }
{
    let byte = text[0];
    match byte {
        b'\n' => Front::LineFeed,
        b' ' | b'\t' | b'\r' => Front::Blank,
        b'{' => comment(text, b"{", b"}"),
        b'(' => parenthesis(text),
        b'<' => longest_sign(text, Sign::Less),
        b'>' => longest_sign(text, Sign::Greater),
        b':' => longest_sign(text, Sign::Colon),
        b'.' => longest_sign(text, Sign::Period),
        b'-' => longest_sign(text, Sign::Minus),
        b'+' => Front::ShortSign(Sign::Plus),
        b'*' => Front::ShortSign(Sign::Star),
        b'=' => Front::ShortSign(Sign::Equal),
        b')' => Front::ShortSign(Sign::CloseParenthesis),
        b'[' => Front::ShortSign(Sign::OpenBracket),
        b']' => Front::ShortSign(Sign::CloseBracket),
        b',' => Front::ShortSign(Sign::Comma),
        b';' => Front::ShortSign(Sign::Semicolon),
        b'^' => Front::ShortSign(Sign::Caret),
        b'#' => Front::ShortSign(Sign::Hash),
        _ if byte.is_ascii_alphabetic() => Front::Letters,
        _ if byte.is_ascii_digit() => Front::Digits,
        _ => Front::BadByte,
    }
}
