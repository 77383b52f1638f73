// Whether words have the forms of a listing.

ghost use Rattle.std.specs.Prelude.{◌≡◌, ◌==◌, option_map, position};
ghost use Rattle.std.specs.List.{list_all};
ghost use Rattle.spv_listing_values.specs.Forms as spec;
ghost use Rattle.spv_listing_values.specs.Places.{head_seen};

use crate::numbers::{is_at_most_wide, short, wide};
use crate::scanning::{is_plain, takes_name};
use crate::texts::HeadText;
use crate::words::{find, is_among};

fn is_letter(byte: u8) -> bool
    ensures { result ≡ spec.is_letter byte }
{
    b'A' <= byte && byte <= b'Z'
}

fn is_digit(byte: u8) -> bool
    ensures { result ≡ spec.is_digit byte }
{
    b'0' <= byte && byte <= b'9'
}

// Whether a byte ends no word and is no small letter.
fn is_word_byte(byte: u8) -> bool
    ensures { result ≡ spec.is_word_byte byte }
{
    is_plain(byte) && !byte.is_ascii_lowercase()
}

fn are_word_bytes(text: &[u8]) -> bool
    ensures { result ≡ list_all spec.is_word_byte text.now }
{
    for byte in text {
        if !is_word_byte(*byte) {
            return false;
        }
    }
    true
}

// Whether a text is a word.
pub(crate) fn is_word(text: &[u8]) -> bool
    ensures { result ≡ spec.is_word text.now }
{
    match text {
        [] => false,
        [_, ..] => are_word_bytes(text),
    }
}

// The words of the language, which name nothing.
static RESERVED: [&[u8]; 51] = [
    b"AND",
    b"ARRAY",
    b"ASSERT",
    b"BEGIN",
    b"BY",
    b"CASE",
    b"CONST",
    b"DECLARE",
    b"DIV",
    b"DO",
    b"DOWNTO",
    b"ELSE",
    b"END",
    b"ENTRY",
    b"EXIT",
    b"FALSE",
    b"FOR",
    b"FORWARD",
    b"FROM",
    b"FUNCTION",
    b"GLOBAL",
    b"IF",
    b"INFER",
    b"INITIAL",
    b"INVARIANT",
    b"MOD",
    b"NEW",
    b"NIL",
    b"NOT",
    b"OF",
    b"OR",
    b"PROCEDURE",
    b"PROGRAM",
    b"RECORD",
    b"REPEAT",
    b"REPLACE",
    b"THEN",
    b"TO",
    b"TRUE",
    b"TYPE",
    b"UNTIL",
    b"VAR",
    b"WHERE",
    b"WHILE",
    b"PACKED",
    b"SET",
    b"FILE",
    b"WITH",
    b"IN",
    b"GOTO",
    b"LABEL",
];

fn are_name_bytes(text: &[u8]) -> bool
    ensures { result ≡ list_all spec.is_name_byte text.now }
{
    for byte in text {
        if !is_letter(*byte) && !is_digit(*byte) {
            return false;
        }
    }
    true
}

// A letter in upper case with letters and digits behind it, and no word of the language.
pub(crate) fn is_name(text: &[u8]) -> bool
    ensures { result ≡ spec.is_name text.now }
{
    let [first, rest @ ..] = text else {
        return false;
    };
    if !is_letter(*first) {
        return false;
    }
    if !are_name_bytes(rest) {
        return false;
    }
    !is_among(&RESERVED, text)
}

fn are_digits(digits: &[u8]) -> bool
    ensures { result ≡ list_all spec.is_digit digits.now }
{
    for digit in digits {
        if !is_digit(*digit) {
            return false;
        }
    }
    true
}

// Digits of a number without a zero in front.
fn is_decimal(digits: &[u8]) -> bool
    ensures { result ≡ spec.is_decimal digits.now }
{
    if digits.len() == 0 {
        return false;
    }
    if !are_digits(digits) {
        return false;
    }
    digits[0] != b'0' || digits.len() == 1
}

// Digits of a number above 0: the first one is not a zero.
fn is_positive(digits: &[u8]) -> bool
    ensures { result ≡ spec.is_positive digits.now }
{
    if !is_decimal(digits) {
        return false;
    }
    digits[0] != b'0'
}

// A whole number of 128 bits.
fn is_numeral(text: &[u8]) -> bool
    ensures { result ≡ spec.is_numeral text.now }
{
    match text {
        [] => false,
        [first, digits @ ..] => (is_decimal(text) && wide(text).is_some())
            || (*first == b'-' && is_positive(digits) && is_at_most_wide(digits)),
    }
}

// The number of a fresh name.
fn is_number(digits: &[u8]) -> bool
    ensures { result ≡ spec.is_number digits.now }
{
    is_positive(digits) && short(digits).is_some()
}

// The place of the first mark of a fresh name.
fn mark(text: &[u8]) -> Option<usize>
    ensures { result ≡ position (λ b. b == 64) text.now }
{
    text.iter().position(|b| *b == b'@')
}

// A name, or a fresh one with its number.
fn is_variable(text: &[u8]) -> bool
    ensures { result ≡ spec.is_variable text.now }
{
    match mark(text) {
        None => is_name(text),
        Some(at) => {
            if !is_name(&text[..at]) {
                return false;
            }
            is_number(&text[at + 1..])
        }
    }
}

// The class of a type.
fn is_class(text: &[u8]) -> bool
    ensures { result ≡ spec.is_class text.now }
{
    match text {
        [] => false,
        [first, rest @ ..] => *first == b'#' && is_variable(rest),
    }
}

static TRUTH_VALUES: [&[u8]; 2] = [b"TRUE", b"FALSE"];

// What stands alone: a truth value, a numeral, a variable or a class.
fn stands_alone(text: &[u8]) -> bool
    ensures { result ≡ spec.stands_alone text.now }
{
    is_among(&TRUTH_VALUES, text) || is_numeral(text) || is_variable(text) || is_class(text)
}

// The operators, each with the number of its arguments.
static OPERATORS: [(&[u8], usize); 25] = [
    (b"+", 2),
    (b"-", 2),
    (b"*", 2),
    (b"DIV", 2),
    (b"MOD", 2),
    (b"=", 2),
    (b"<", 2),
    (b"<=", 2),
    (b"NOT", 1),
    (b"AND", 2),
    (b"OR", 2),
    (b"IMPLIES", 2),
    (b"SELECT", 2),
    (b"STORE", 3),
    (b"FIELD", 1),
    (b"PUT", 2),
    (b"CELL", 2),
    (b"SETCELL", 3),
    (b"EXTEND", 3),
    (b"POINTERTO", 2),
    (b"CAR", 1),
    (b"CDR", 1),
    (b"CONS", 2),
    (b"ATOM", 1),
    (b"NIL", 0),
];

// Whether an operator has its number of arguments. A declared symbol has any.
fn is_applied_to(text: &[u8], count: usize) -> bool
    ensures { result ≡ spec.is_applied_to text.now count }
{
    match find(&OPERATORS, text) {
        None => is_name(text),
        Some(arity) => count == arity,
    }
}

// Whether a name is there where one belongs to the word, and only there.
fn names_rightly(takes_name: bool, name: Option<&[u8]>) -> bool
    ensures { result ≡ spec.names_rightly takes_name (option_map (λ n. n.now) name.entry) }
{
    match name {
        None => !takes_name,
        Some(name) => takes_name && is_word(name) && is_name(name),
    }
}

// Whether a head may stand over so many arguments.
pub(crate) fn is_head(head: HeadText, count: usize) -> bool
    ensures { result ≡ spec.is_head (head_seen head.entry) count }
{
    match head {
        HeadText::Alone(text) => is_word(text) && stands_alone(text) && count == 0,
        HeadText::Applied(text, name) => is_word(text)
            && names_rightly(takes_name(text), name)
            && is_applied_to(text, count),
    }
}
