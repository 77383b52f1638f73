// The words of variables, classes and start values.

ghost use Rattle.std.specs.Prelude.{◌≡◌, ◌++◌, OnOk, IfOk, decimal};
ghost use Rattle.spv_listing_values.specs.Places.{name_at};
ghost use Rattle.spv_rechecking.specs.written_terms.Printing as spec;

use itoa::Buffer;
use spv_logic::names::{Names, Symbol};
use spv_term::{Head, TypeId};
use std::alloc::{AllocError, Global};

// Adds a number, as its digits.
fn push_decimal(out: &mut Vec<u8>, number: u32) -> Result<(), AllocError>
    ensures { OnOk result (out.new.items ≡ out.old.items ++ decimal number) }
{
    let mut buffer = Buffer::new();
    out.extend_from_slice(buffer.format(number).as_bytes())?;
    Ok(())
}

// Adds a name; nothing where the table does not have it.
fn push_name(out: &mut Vec<u8>, names: &Names, name: Symbol) -> Result<(), AllocError>
    ensures { OnOk result (out.new.items ≡ out.old.items ++ name_at names.now name) }
{
    if (name.0 as usize) < names.len() {
        out.extend_from_slice(names.text(name))?;
    }
    Ok(())
}

// Adds the mark of a fresh name.
fn push_mark(out: &mut Vec<u8>, number: u32) -> Result<(), AllocError>
    ensures { OnOk result (out.new.items ≡ out.old.items ++ spec.mark number) }
{
    if number > 0 {
        out.push(b'@')?;
        push_decimal(out, number)?;
    }
    Ok(())
}

// Adds the title of a type; nothing where it has none.
fn push_title(
    out: &mut Vec<u8>,
    names: &Names,
    titles: &[Option<Symbol>],
    t: TypeId,
) -> Result<(), AllocError>
    ensures { OnOk result (out.new.items ≡ out.old.items ++ spec.title_at names.now titles.now t) }
{
    match titles.get(t.0 as usize) {
        Some(Some(name)) => push_name(out, names, *name),
        _ => Ok(()),
    }
}

// Adds the word of a variable, a class or a start value; of other heads nothing.
fn push_leaf(
    out: &mut Vec<u8>,
    names: &Names,
    titles: &[Option<Symbol>],
    head: Head,
) -> Result<(), AllocError>
    ensures { OnOk result (out.new.items ≡ out.old.items ++ spec.leaf_text names.now titles.now head) }
{
    match head {
        Head::Var(name, _, number) => {
            push_name(out, names, name)?;
            push_mark(out, number)
        }
        Head::ClassVar(t, number) => {
            out.push(b'#')?;
            push_title(out, names, titles, t)?;
            push_mark(out, number)
        }
        Head::Start(name, _) => push_name(out, names, name),
        _ => Ok(()),
    }
}

// The word of a variable, a class or a start value.
pub(crate) fn leaf_text(
    alloc: Global,
    names: &Names,
    titles: &[Option<Symbol>],
    head: Head,
) -> Result<Vec<u8>, AllocError>
    ensures { IfOk result (λ text. text.items ≡ spec.leaf_text names.now titles.now head) }
{
    let mut out = Vec::new(alloc);
    push_leaf(&mut out, names, titles, head)?;
    Ok(out)
}
