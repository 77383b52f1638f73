// What is told behind the line of a refusal.

ghost use Rattle.std.specs.Prelude.{◌≡◌, ◌++◌, IfOk, OnOk, decimal};
ghost use Rattle.std.specs.Fmt.{signed_decimal};
ghost use Rattle.spv_verify.specs.refused.Details as spec;

use itoa::Buffer;
use spv_logic::TypeId;
use spv_logic::list::List;
use spv_logic::names::{Names, Symbol};
use spv_program::Item;
use spv_tree::tokens::Word;
use std::alloc::{AllocError, Global};

// A word that is left out.
fn left_out(word: Word) -> &'static [u8]
    ensures { result.now ≡ spec.left_out_text word }
{
    match word {
        Word::Packed => b"PACKED",
        Word::Set => b"SET",
        Word::File => b"FILE",
        Word::With => b"WITH",
        Word::In => b"IN",
        Word::Goto => b"GOTO",
        Word::Label => b"LABEL",
        _ => b"",
    }
}

// The text of a name.
fn name_text(names: &Names, x: Symbol) -> &[u8]
    ensures { result.now ≡ spec.name_text names.now x }
{
    if (x.0 as usize) < names.len() {
        names.text(x)
    } else {
        b""
    }
}

// The first name of a type, where it has one.
fn title(titles: &[Option<Symbol>], t: TypeId) -> Option<Symbol>
    ensures { result ≡ spec.title titles.now t }
{
    match titles.get(t.0 as usize) {
        Some(title) => *title,
        None => None,
    }
}

fn push_title(
    names: &Names,
    titles: &[Option<Symbol>],
    t: TypeId,
    out: &mut Vec<u8>,
) -> Result<(), AllocError>
    ensures { OnOk result (out.new.items ≡ out.old.items ++ spec.title_text names.now (spec.title titles.now t)) }
{
    match title(titles, t) {
        Some(x) => out.extend_from_slice(name_text(names, x)),
        None => Ok(()),
    }
}

fn push_item(
    names: &Names,
    titles: &[Option<Symbol>],
    item: Item,
    out: &mut Vec<u8>,
) -> Result<(), AllocError>
    ensures { OnOk result (out.new.items ≡ out.old.items ++ spec.item_text names.now titles.now item) }
{
    match item {
        Item::Variable(x) => out.extend_from_slice(name_text(names, x)),
        Item::Class(t) => {
            out.extend_from_slice(b"#")?;
            push_title(names, titles, t, out)
        }
    }
}

/// A word that is left out.
pub(crate) fn word_detail(alloc: Global, word: Word) -> Result<List<u8>, AllocError>
    ensures { IfOk result (λ d. d ≡ spec.left_out_text word) }
{
    Ok(List::from_vec(Vec::from_slice(alloc, left_out(word))?))
}

/// A name.
pub(crate) fn name_detail(alloc: Global, names: &Names, x: Symbol) -> Result<List<u8>, AllocError>
    ensures { IfOk result (λ d. d ≡ spec.name_text names.now x) }
{
    Ok(List::from_vec(Vec::from_slice(alloc, name_text(names, x))?))
}

/// A number, in decimal.
pub(crate) fn number_detail(alloc: Global, number: i64) -> Result<List<u8>, AllocError>
    ensures { IfOk result (λ d. d ≡ signed_decimal number) }
{
    let mut buffer = Buffer::new();
    Ok(List::from_vec(Vec::from_slice(alloc, buffer.format(number).as_bytes())?))
}

/// An item.
pub(crate) fn item_detail(
    alloc: Global,
    names: &Names,
    titles: &[Option<Symbol>],
    item: Item,
) -> Result<List<u8>, AllocError>
    ensures { IfOk result (λ d. d ≡ spec.item_text names.now titles.now item) }
{
    let mut out = Vec::new(alloc);
    push_item(names, titles, item, &mut out)?;
    Ok(List::from_vec(out))
}

/// Two items, with a space between them.
pub(crate) fn items_detail(
    alloc: Global,
    names: &Names,
    titles: &[Option<Symbol>],
    first: Item,
    second: Item,
) -> Result<List<u8>, AllocError>
    ensures { IfOk result (λ d. d ≡ spec.items_text names.now titles.now first second) }
{
    let mut out = Vec::new(alloc);
    push_item(names, titles, first, &mut out)?;
    out.extend_from_slice(b" ")?;
    push_item(names, titles, second, &mut out)?;
    Ok(List::from_vec(out))
}

// A word, and a number behind it.
fn counted(alloc: Global, word: &[u8], number: u32) -> Result<List<u8>, AllocError>
    ensures { IfOk result (λ d. d ≡ word.now ++ decimal number) }
{
    let mut buffer = Buffer::new();
    let mut out = Vec::from_slice(alloc, word)?;
    out.extend_from_slice(buffer.format(number).as_bytes())?;
    Ok(List::from_vec(out))
}

/// How many conditions there may be.
pub(crate) fn conditions_detail(alloc: Global, most: u32) -> Result<List<u8>, AllocError>
    ensures { IfOk result (λ d. d ≡ spec.conditions_text most) }
{
    counted(alloc, b"CONDITIONS ", most)
}

/// How many terms there may be.
pub(crate) fn terms_detail(alloc: Global, most: u32) -> Result<List<u8>, AllocError>
    ensures { IfOk result (λ d. d ≡ spec.terms_text most) }
{
    counted(alloc, b"TERMS ", most)
}
