// Names, numbers and terms as text. Each function adds the text at the end of `out`, or answers for
// want of memory.

ghost use Rattle.std.specs.Prelude.{◌≡◌, ◌+◌, ◌++◌, ◌<◌, length, OnOk, decimal};
ghost use Rattle.std.specs.Fmt.{signed_decimal};
ghost use Rattle.spv_logic.specs.Formulas.{negation};
ghost use Rattle.spv_term.specs.Arena.{AllBelow, tree, trees};
ghost use Rattle.spv_listing.specs.printed.Printed as spec;
ghost use Rattle.spv_listing.specs.printed.Printed.{name_in, mark, title_in, head_text, term_text, denominator_text, fraction_text};
ghost use Rattle.spv_listing.specs.printed.Waiting.{rest_text, all_steps, steps, AreTerms, Begins};

use itoa::Buffer;
use spv_frac::Frac;
use spv_logic::names::{Names, Symbol};
use spv_term::{Head, TermId, Terms, TypeId};
use std::alloc::AllocError;

/// Adds a number that is not negative, as its decimal digits.
pub fn push_decimal(out: &mut Vec<u8>, number: u64) -> Result<(), AllocError>
    ensures text { OnOk result (out.new.items ≡ out.old.items ++ decimal number) }
{
    let mut buffer = Buffer::new();
    out.extend_from_slice(buffer.format(number).as_bytes())?;
    Ok(())
}

/// Adds a whole number, as its sign and its decimal digits.
pub fn push_integer(out: &mut Vec<u8>, number: i128) -> Result<(), AllocError>
    ensures text { OnOk result (out.new.items ≡ out.old.items ++ signed_decimal number) }
{
    let mut buffer = Buffer::new();
    out.extend_from_slice(buffer.format(number).as_bytes())?;
    Ok(())
}

// The denominator of a fraction; nothing where it is 1.
fn push_denominator(out: &mut Vec<u8>, number: Frac) -> Result<(), AllocError>
    ensures { OnOk result (out.new.items ≡ out.old.items ++ denominator_text number.den) }
{
    if number.den != 1 {
        out.push(b'/')?;
        push_integer(out, number.den)?;
    }
    Ok(())
}

/// Adds a fraction in lowest terms: its numerator, and behind a stroke its denominator where that is above 1.
pub fn push_fraction(out: &mut Vec<u8>, number: Frac) -> Result<(), AllocError>
    ensures text { OnOk result (out.new.items ≡ out.old.items ++ fraction_text number) }
{
    push_integer(out, number.num)?;
    push_denominator(out, number)
}

/// Adds a name; nothing where the table does not have it.
pub fn push_name(out: &mut Vec<u8>, names: &Names, name: Symbol) -> Result<(), AllocError>
    ensures text { OnOk result (out.new.items ≡ out.old.items ++ name_in names.now name) }
{
    if (name.0 as usize) < names.len() {
        out.extend_from_slice(names.text(name))?;
    }
    Ok(())
}

// The mark of a fresh name.
fn push_mark(out: &mut Vec<u8>, number: u32) -> Result<(), AllocError>
    ensures { OnOk result (out.new.items ≡ out.old.items ++ mark number) }
{
    if number > 0 {
        out.push(b'@')?;
        push_decimal(out, number as u64)?;
    }
    Ok(())
}

// A type by its title; nothing where it has none.
fn push_title(
    out: &mut Vec<u8>,
    names: &Names,
    titles: &[Option<Symbol>],
    t: TypeId,
) -> Result<(), AllocError>
    ensures { OnOk result (out.new.items ≡ out.old.items ++ title_in names.now titles.now t) }
{
    match titles.get(t.0 as usize) {
        Some(Some(name)) => push_name(out, names, *name),
        _ => Ok(()),
    }
}

// The word of a head that has no name and no number; of others nothing.
fn word(head: Head) -> &'static [u8]
    ensures { result.now ≡ spec.word head }
{
    match head {
        Head::Add => b"+",
        Head::Sub => b"-",
        Head::Mul => b"*",
        Head::Div => b"DIV",
        Head::Mod => b"MOD",
        Head::Eq => b"=",
        Head::Lt => b"<",
        Head::Le => b"<=",
        Head::Not => b"NOT",
        Head::And => b"AND",
        Head::Or => b"OR",
        Head::Implies => b"IMPLIES",
        Head::Select => b"SELECT",
        Head::Store => b"STORE",
        Head::Cell => b"CELL",
        Head::SetCell => b"SETCELL",
        Head::Extend => b"EXTEND",
        Head::PointerTo => b"POINTERTO",
        Head::Car => b"CAR",
        Head::Cdr => b"CDR",
        Head::Cons => b"CONS",
        Head::Atom => b"ATOM",
        Head::True => b"TRUE",
        Head::False => b"FALSE",
        _ => b"",
    }
}

/// Adds the text of a head with its name or number.
pub fn push_head(
    out: &mut Vec<u8>,
    names: &Names,
    titles: &[Option<Symbol>],
    head: Head,
) -> Result<(), AllocError>
    ensures text { OnOk result (out.new.items ≡ out.old.items ++ head_text names.now titles.now head) }
{
    match head {
        Head::Var(name, _, number) => {
            push_name(out, names, name)?;
            push_mark(out, number)
        }
        Head::ClassVar(t, number) => {
            out.push(b'#')?;
            push_title(out, names, titles, t)?;
            push_mark(out, number)
        }
        Head::Start(name, _) | Head::App(name) => push_name(out, names, name),
        Head::Num(number) => push_integer(out, number),
        Head::Field(name) => {
            out.extend_from_slice(b"FIELD ")?;
            push_name(out, names, name)
        }
        Head::Put(name) => {
            out.extend_from_slice(b"PUT ")?;
            push_name(out, names, name)
        }
        Head::Nil(t) => {
            out.extend_from_slice(b"NIL ")?;
            push_title(out, names, titles, t)
        }
        _ => {
            out.extend_from_slice(word(head))?;
            Ok(())
        }
    }
}

// Whether a head is a term by itself, and stands without brackets.
fn stands_alone(head: Head) -> bool
    ensures { result ≡ spec.stands_alone head }
{
    matches!(
        head,
        Head::Var(..)
            | Head::ClassVar(..)
            | Head::Start(..)
            | Head::Num(_)
            | Head::True
            | Head::False
    )
}

// The front of a term, up to its arguments, which then wait.
fn push_front<'a>(
    out: &mut Vec<u8>,
    waiting: &mut Vec<&'a [TermId]>,
    names: &Names,
    titles: &[Option<Symbol>],
    terms: &'a Terms,
    t: TermId,
) -> Result<(), AllocError>
    requires in_range { t.0 < length terms.now.nodes }
    requires are_terms { AreTerms terms.now waiting.old.items }
    ensures { OnOk result (Begins names.now titles.now terms.now (term_text names.now titles.now (tree terms.now t)) (steps (tree terms.now t))
        out.old.items waiting.old.items out.new.items waiting.new.items) }
{
    terms.law_arena();
    let node = terms.node(t);
    if stands_alone(node.head) {
        return push_head(out, names, titles, node.head);
    }
    out.push(b'(')?;
    push_head(out, names, titles, node.head)?;
    waiting.push(node.args.as_slice())?;
    Ok(())
}

// The next of a term's arguments, or its end.
fn push_next<'a>(
    out: &mut Vec<u8>,
    waiting: &mut Vec<&'a [TermId]>,
    names: &Names,
    titles: &[Option<Symbol>],
    terms: &'a Terms,
    args: &'a [TermId],
) -> Result<(), AllocError>
    requires in_range { AllBelow (length terms.now.nodes) args.now }
    requires are_terms { AreTerms terms.now waiting.old.items }
    ensures { OnOk result (Begins names.now titles.now terms.now (rest_text names.now titles.now terms.now args.now) (1 + all_steps (trees terms.now args.now))
        out.old.items waiting.old.items out.new.items waiting.new.items) }
{
    match args {
        [] => {
            out.push(b')')?;
            Ok(())
        }
        [first, rest @ ..] => {
            waiting.push(rest)?;
            out.push(b' ')?;
            push_front(out, waiting, names, titles, terms, *first)
        }
    }
}

/// Adds the text of a term: its head and its arguments, from the outermost in. What waits is kept in
/// a list, so that terms of any depth can be printed.
pub fn push_term(
    out: &mut Vec<u8>,
    names: &Names,
    titles: &[Option<Symbol>],
    terms: &Terms,
    t: TermId,
) -> Result<(), AllocError>
    requires known { t.0 < length terms.now.nodes }
    ensures text { OnOk result (out.new.items ≡ out.old.items ++ term_text names.now titles.now (tree terms.now t)) }
{
    let mut waiting = Vec::new(*out.allocator());
    push_front(out, &mut waiting, names, titles, terms, t)?;
    while let Some(args) = waiting.pop() {
        push_next(out, &mut waiting, names, titles, terms, args)?;
    }
    Ok(())
}

/// Adds the text of a formula's negation.
pub fn push_negation(
    out: &mut Vec<u8>,
    names: &Names,
    titles: &[Option<Symbol>],
    terms: &Terms,
    formula: TermId,
) -> Result<(), AllocError>
    requires known { formula.0 < length terms.now.nodes }
    ensures text { OnOk result (out.new.items ≡ out.old.items ++ term_text names.now titles.now (negation (tree terms.now formula))) }
{
    out.extend_from_slice(b"(NOT ")?;
    push_term(out, names, titles, terms, formula)?;
    out.push(b')')?;
    Ok(())
}
