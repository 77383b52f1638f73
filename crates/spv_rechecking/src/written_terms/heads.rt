// The heads that words name.

ghost use Rattle.std.specs.Prelude.{◌≡◌, ◌≤◌, ◌^◌, length, position, map};
ghost use Rattle.std.specs.Map.{lookup};
ghost use Rattle.std.specs.Str.{bytes_eq};
ghost use Rattle.spv_listing_values.specs.Places.{head_seen};
ghost use Rattle.spv_rechecking.specs.written_terms.Standing as spec;
ghost use Rattle.spv_rechecking.specs.written_terms.Leaves.{HaveLeaves};
ghost use Rattle.spv_rechecking.specs.written_terms.Words.{words};

use crate::written_terms::leaves::Leaves;
use crate::written_terms::numerals::numeral_for;
use crate::written_terms::words::{find, is_folded, is_same};
use spv_listing_values::texts::HeadText;
use spv_logic::names::{Names, Symbol};
use spv_term::{Head, TypeId};

static CONSTANTS: [(&[u8], Head); 2] = [(b"TRUE", Head::True), (b"FALSE", Head::False)];

static OPERATORS: [(&[u8], Head); 22] = [
    (b"+", Head::Add),
    (b"-", Head::Sub),
    (b"*", Head::Mul),
    (b"DIV", Head::Div),
    (b"MOD", Head::Mod),
    (b"=", Head::Eq),
    (b"<", Head::Lt),
    (b"<=", Head::Le),
    (b"NOT", Head::Not),
    (b"AND", Head::And),
    (b"OR", Head::Or),
    (b"IMPLIES", Head::Implies),
    (b"SELECT", Head::Select),
    (b"STORE", Head::Store),
    (b"CELL", Head::Cell),
    (b"SETCELL", Head::SetCell),
    (b"EXTEND", Head::Extend),
    (b"POINTERTO", Head::PointerTo),
    (b"CAR", Head::Car),
    (b"CDR", Head::Cdr),
    (b"CONS", Head::Cons),
    (b"ATOM", Head::Atom),
];

// The first of two, where it is there, else the second.
fn either(first: Option<Head>, second: Option<Head>) -> Option<Head>
    ensures { result ≡ spec.either first second }
{
    match first {
        Some(head) => Some(head),
        None => second,
    }
}

// TRUE or FALSE.
fn constant_for(word: &[u8]) -> Option<Head>
    ensures { result ≡ lookup (bytes_eq word.now) spec.constants }
{
    find(&CONSTANTS, word)
}

// The operator of this word.
fn operator_for(word: &[u8]) -> Option<Head>
    ensures { result ≡ lookup (bytes_eq word.now) spec.operators }
{
    find(&OPERATORS, word)
}

/// The symbol whose name is this text.
pub fn symbol_for(names: &Names, word: &[u8]) -> Option<Symbol>
    ensures { result ≡ spec.symbol_for names.now word.now }
{
    names.law_different();
    if is_folded(word) {
        return names.find(word);
    }
    None
}

// Whether a title is this one.
fn is_title(name: Symbol, title: &Option<Symbol>) -> bool
    ensures { result ≡ spec.is_title name title.now }
{
    match title {
        Some(other) => name.0 == other.0,
        None => false,
    }
}

// The first type whose title is this symbol.
fn type_of(titles: &[Option<Symbol>], name: Symbol) -> Option<TypeId>
    requires { length titles.now ≤ 2 ^ 32 }
    ensures { result ≡ spec.type_of titles.now name }
{
    for place in 0..titles.len() {
        if is_title(name, &titles[place]) {
            return Some(TypeId(place as u32));
        }
    }
    None
}

// The first type with this title.
fn type_for(names: &Names, titles: &[Option<Symbol>], word: &[u8]) -> Option<TypeId>
    requires { length titles.now ≤ 2 ^ 32 }
    ensures { result ≡ spec.type_for names.now titles.now word.now }
{
    match symbol_for(names, word) {
        Some(name) => type_of(titles, name),
        None => None,
    }
}

// What stands alone as this word.
fn alone_for(names: &Names, titles: &[Option<Symbol>], leaves: &Leaves, word: &[u8]) -> Option<Head>
    requires { HaveLeaves names.now titles.now leaves.now }
    ensures { result ≡ spec.alone_for (words names.now titles.now leaves.now) word.now }
{
    let leaf = leaves.find(names, titles, word);
    either(constant_for(word), either(numeral_for(word), leaf))
}

// An operator, or the symbol of this name.
fn applied_for(names: &Names, word: &[u8]) -> Option<Head>
    ensures { result ≡ spec.applied_for names.now word.now }
{
    let symbol = match symbol_for(names, word) {
        Some(symbol) => Some(Head::App(symbol)),
        None => None,
    };
    either(operator_for(word), symbol)
}

// An operator with the name of a field or of a type.
fn named_for(names: &Names, titles: &[Option<Symbol>], word: &[u8], name: &[u8]) -> Option<Head>
    requires { length titles.now ≤ 2 ^ 32 }
    ensures { result ≡ spec.named_for names.now titles.now word.now name.now }
{
    if is_same(word, b"FIELD") {
        return match symbol_for(names, name) {
            Some(field) => Some(Head::Field(field)),
            None => None,
        };
    }
    if is_same(word, b"PUT") {
        return match symbol_for(names, name) {
            Some(field) => Some(Head::Put(field)),
            None => None,
        };
    }
    if is_same(word, b"NIL") {
        return match type_for(names, titles, name) {
            Some(t) => Some(Head::Nil(t)),
            None => None,
        };
    }
    None
}

/// The head that is written so.
pub fn head_for(
    names: &Names,
    titles: &[Option<Symbol>],
    leaves: &Leaves,
    head: HeadText,
) -> Option<Head>
    requires leaves { HaveLeaves names.now titles.now leaves.now }
    requires few { length titles.now ≤ 2 ^ 32 }
    ensures { result ≡ spec.head_for (words names.now titles.now leaves.now) (head_seen head.entry) }
{
    match head {
        HeadText::Alone(word) => alone_for(names, titles, leaves, word),
        HeadText::Applied(word, None) => applied_for(names, word),
        HeadText::Applied(word, Some(name)) => named_for(names, titles, word, name),
    }
}
