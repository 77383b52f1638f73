// The page of a listing. Each function adds text at the end of `out`, or answers for want of memory.

ghost use Rattle.std.specs.Prelude.{◌≡◌, ◌+◌, ◌++◌, ◌∷◌, [], ◌<◌, length, OnOk, decimal, option_map};
ghost use Rattle.std.specs.Fmt.{signed_decimal};
ghost use Rattle.spv_listing_values.specs.Written.{name_bytes, written_bytes};
ghost use Rattle.spv_listing_values.specs.Lines.{denominator_bytes};
ghost use Rattle.spv_listing_values.specs.Places.{tree, trees, args_at};
ghost use Rattle.spv_listing_values.specs.Waiting.{rest_text, all_steps, term_steps, AreIn, AreTerms, Begins};

use crate::texts::{HeadText, Text, Texts};
use itoa::Buffer;
use spv_frac::Frac;
use std::alloc::AllocError;

// A number that is not negative, as its decimal digits.
fn push_decimal(out: &mut Vec<u8>, number: u64) -> Result<(), AllocError>
    ensures { OnOk result (out.new.items ≡ out.old.items ++ decimal number) }
{
    let mut buffer = Buffer::new();
    out.extend_from_slice(buffer.format(number).as_bytes())?;
    Ok(())
}

// A whole number, as its sign and its decimal digits.
fn push_integer(out: &mut Vec<u8>, number: i128) -> Result<(), AllocError>
    ensures { OnOk result (out.new.items ≡ out.old.items ++ signed_decimal number) }
{
    let mut buffer = Buffer::new();
    out.extend_from_slice(buffer.format(number).as_bytes())?;
    Ok(())
}

// A number behind a blank.
pub(crate) fn push_number(out: &mut Vec<u8>, number: u64) -> Result<(), AllocError>
    ensures { OnOk result (out.new.items ≡ out.old.items ++ 32 ∷ decimal number) }
{
    out.push(b' ')?;
    push_decimal(out, number)
}

// The denominator of a fraction; nothing where it is 1.
fn push_denominator(out: &mut Vec<u8>, number: Frac) -> Result<(), AllocError>
    ensures { OnOk result (out.new.items ≡ out.old.items ++ denominator_bytes number.den) }
{
    if number.den != 1 {
        out.push(b'/')?;
        push_integer(out, number.den)?;
    }
    Ok(())
}

// A fraction behind a blank.
pub(crate) fn push_fraction(out: &mut Vec<u8>, number: Frac) -> Result<(), AllocError>
    ensures { OnOk result (out.new.items ≡ out.old.items ++ 32 ∷ (signed_decimal number.num ++ denominator_bytes number.den)) }
{
    out.push(b' ')?;
    push_integer(out, number.num)?;
    push_denominator(out, number)
}

// A word behind a blank.
pub(crate) fn push_word(out: &mut Vec<u8>, word: &[u8]) -> Result<(), AllocError>
    ensures { OnOk result (out.new.items ≡ out.old.items ++ 32 ∷ word.now) }
{
    out.push(b' ')?;
    out.extend_from_slice(word)?;
    Ok(())
}

// A name behind a blank, where there is one.
fn push_name(out: &mut Vec<u8>, name: Option<&[u8]>) -> Result<(), AllocError>
    ensures { OnOk result (out.new.items ≡ out.old.items ++ name_bytes (option_map (λ n. n.now) name.entry)) }
{
    match name {
        None => Ok(()),
        Some(text) => push_word(out, text),
    }
}

// The front of an applied word: the bracket, the word and its name.
fn push_head(out: &mut Vec<u8>, word: &[u8], name: Option<&[u8]>) -> Result<(), AllocError>
    ensures { OnOk result (out.new.items ≡ out.old.items ++ 40 ∷ (word.now ++ name_bytes (option_map (λ n. n.now) name.entry))) }
{
    out.push(b'(')?;
    out.extend_from_slice(word)?;
    push_name(out, name)
}

// The front of a term, up to its arguments, which then wait.
fn push_front<'a>(
    out: &mut Vec<u8>,
    waiting: &mut Vec<&'a [Text]>,
    texts: &'a Texts,
    t: Text,
) -> Result<(), AllocError>
    requires in_range { t.0 < length texts.now }
    requires are_terms { AreTerms texts.now waiting.old.items }
    ensures { OnOk result (Begins texts.now (written_bytes (tree texts.now t)) (term_steps (tree texts.now t)) out.old.items waiting.old.items out.new.items waiting.new.items) }
{
    texts.law_texts();
    match texts.head(t) {
        HeadText::Alone(word) => {
            out.extend_from_slice(word)?;
            Ok(())
        }
        HeadText::Applied(word, name) => {
            push_head(out, word, name)?;
            waiting.push(texts.args(t))?;
            Ok(())
        }
    }
}

// The next of a term's arguments, or its end.
fn push_next<'a>(
    out: &mut Vec<u8>,
    waiting: &mut Vec<&'a [Text]>,
    texts: &'a Texts,
    args: &'a [Text],
) -> Result<(), AllocError>
    requires in_range { AreIn texts.now args.now }
    requires are_terms { AreTerms texts.now waiting.old.items }
    ensures { OnOk result (Begins texts.now (rest_text texts.now args.now) (1 + all_steps (args_at (trees texts.now) args.now))
        out.old.items waiting.old.items out.new.items waiting.new.items) }
{
    match args {
        [] => {
            out.push(b')')?;
            Ok(())
        }
        [first, rest @ ..] => {
            waiting.push(rest)?;
            out.push(b' ')?;
            push_front(out, waiting, texts, *first)
        }
    }
}

// A term: its head and its arguments, from the outermost in. What waits is kept in a list, so that terms of any depth can be printed.
fn push_term(out: &mut Vec<u8>, texts: &Texts, t: Text) -> Result<(), AllocError>
    requires { t.0 < length texts.now }
    ensures { OnOk result (out.new.items ≡ out.old.items ++ written_bytes (tree texts.now t)) }
{
    let mut waiting = Vec::new(*out.allocator());
    push_front(out, &mut waiting, texts, t)?;
    while let Some(args) = waiting.pop() {
        push_next(out, &mut waiting, texts, args)?;
    }
    Ok(())
}

// A term behind a blank.
pub(crate) fn push_text(out: &mut Vec<u8>, texts: &Texts, t: Text) -> Result<(), AllocError>
    requires { t.0 < length texts.now }
    ensures { OnOk result (out.new.items ≡ out.old.items ++ 32 ∷ written_bytes (tree texts.now t)) }
{
    out.push(b' ')?;
    push_term(out, texts, t)
}
